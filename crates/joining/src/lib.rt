// Joining is reaching: what rows forward and chosen rows backward reach, and what an accepted file gives. No code.
#![tactic(auto)]
