// Sets of rows as choices, and choices as sets of rows. No code.
#![tactic(auto)]
