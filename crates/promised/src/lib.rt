// Theorems alone: every sentence that the documents ask to be shown and that stands in no contract. See specs/Promised.antt.
#![tactic(auto)]
