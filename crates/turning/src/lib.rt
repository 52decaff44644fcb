// Theorems alone: walks over the zones of a part, and when such a walk comes back to where it started. See specs/ and proofs/.
#![tactic(auto)]
