// Theorems alone: the collapse leaves the carriers that the key names, and on full boards no single move shifts one. See specs/ and proofs/.
#![tactic(auto)]
