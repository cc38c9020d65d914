// Routes over rows forward and chosen rows backward: where they lead, and the first of those with the fewest rows. No code.
#![tactic(auto)]
