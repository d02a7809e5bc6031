// The seventh change request as theorems about the definitions of its two calls: specs/ says it sentence by sentence, and proofs/ shows that
// it holds, for every input. No code.
