// Theorems alone: what the search count counts, and how large it can be. See specs/ and proofs/.
#![tactic(auto)]
