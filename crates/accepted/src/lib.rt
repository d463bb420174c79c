// A work buffer that holds an accepted sheet: what judging leaves, and all that a run stands on. No functions.
#![tactic(auto)]
