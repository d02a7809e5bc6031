// Document 01's samples P1 to P10 and those of the change requests: the traces, what they come to and their reports stand in specs/, the claim
// in proofs/. No code.
