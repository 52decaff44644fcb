// Theorems alone: a carrier that is alone out can go, so never is exactly one blocked. See specs/ and proofs/.
#![tactic(auto)]
