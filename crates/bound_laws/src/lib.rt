// Laws alone: how large the numbers of answers can get. See proofs/.
#![tactic(auto)]
