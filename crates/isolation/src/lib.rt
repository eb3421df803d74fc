// Demand 3: tenants can't hurt each other. It is a theorem about the calls of `segments` and has no code of its own: the statement is
// specs/Isolation.antt, the proof proofs/Theorem.antt.
#![tactic(auto)]
