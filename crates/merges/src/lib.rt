// The sixth change request as theorems about `merge`, the definition of the merging call: specs/ says it sentence by sentence, and proofs/
// shows that it holds, for every input. No code.
