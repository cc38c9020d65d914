// What the two calls of planning answer, and that their replies for one file are one plan. No code.
#![tactic(auto)]
