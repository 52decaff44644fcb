// Theorems alone: a sheet is marked 0 exactly where it is right. See proofs/.
#![tactic(auto)]
