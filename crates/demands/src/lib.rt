// Statements and theorems alone: demands 2 and 3, over the definitions. See specs/Demands.antt.
#![tactic(auto)]
