// Theorems alone: they are in proofs/, and the plain statements that they are about in specs/.
#![tactic(auto)]
