// Theorems alone: what the home gate changes against the older moving rule. See specs/ and proofs/.
#![tactic(auto)]
