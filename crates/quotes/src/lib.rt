// How far a change of one row's price can move the plan and its total. No code.
#![tactic(auto)]
