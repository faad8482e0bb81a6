// Theorems alone: they are in proofs/.
#![tactic(auto)]
