// Shores, how often rows enter them, joining, tight shores: the combinatorics of directed cuts. No code.
#![tactic(auto)]
