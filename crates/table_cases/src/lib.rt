// Theorems alone: they are in specs/.
#![tactic(auto)]
