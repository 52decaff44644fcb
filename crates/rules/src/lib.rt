// Definitions alone: what the key, the collapse, the mark, the search count and a single move are. See specs/.
#![tactic(auto)]
