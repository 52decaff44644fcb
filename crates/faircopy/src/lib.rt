// Definitions and theorems alone: the bytes of a board over a track and a position, and what a fair copy is. See specs/ and proofs/.
#![tactic(auto)]
