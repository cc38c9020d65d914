// Potentials beside a set of rows: the conditions that make it cheapest, and how to repair them. No code.
#![tactic(auto)]
