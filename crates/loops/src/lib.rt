// Rows from a junction to itself: they make no difference, and no plan opens one. No code.
#![tactic(auto)]
