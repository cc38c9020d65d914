// Rows decided one by one: when a set of rows, listed, is the first choice. No code.
#![tactic(auto)]
