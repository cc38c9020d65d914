// The starred halls of document 01, proved about the definitions as one theorem over a list of them. No code.
#![tactic(auto)]
