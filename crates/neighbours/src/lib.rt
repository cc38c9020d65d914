// Tight neighbourhoods: what is reached from a junction when one chosen row is left out. No code.
#![tactic(auto)]
