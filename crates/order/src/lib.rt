// Theorems alone: the order in which the key sends carriers home. See specs/ and proofs/.
#![tactic(auto)]
