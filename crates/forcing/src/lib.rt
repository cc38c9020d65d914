// One row forced into a joining choice or kept out of it: least totals with it and without it, and what is left to start from when its cost changes. No code.
#![tactic(auto)]
