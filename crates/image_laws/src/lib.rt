// Theorems alone: they are in proofs/, and the one definition that they add in specs/.
#![tactic(auto)]
