// Definitions and theorems alone: what the replay of a move log is, and what holds of it. See specs/ and proofs/.
#![tactic(auto)]
