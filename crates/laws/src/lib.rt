// General laws on booleans, numbers, lists and finite search. No code.
#![tactic(auto)]
