// The theory of the clock condition: what specs/ defines on top of the paper's Clock, and in proofs/ what holds of it for every
// trace. It has no code. The engine that computes the answer is the crate clock.
