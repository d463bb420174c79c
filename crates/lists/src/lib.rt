// Facts about lists and tests that mention nothing of ours. No functions.
#![tactic(auto)]
