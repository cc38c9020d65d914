// How many directed cuts there can be of which no two cross. No code.
#![tactic(auto)]
