// Document 01's examples that are to be proved. They are one claim about the definitions and have no code of their own: the list and the claim
// are specs/Examples.antt, the proof proofs/Theorem.antt.
#![tactic(auto)]
