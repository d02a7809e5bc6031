// The three demands as theorems about `judge`, the definition of the public call: specs/ says each demand sentence by sentence, and
// proofs/ shows that it holds, for every input. No code.
