// Theorems alone: the least way of the rules, and the queue of a breadth-first search that finds it. See specs/ and proofs/.
#![tactic(auto)]
