// Which choice goes before which is a strict total order, so one joining choice is the first. No code.
#![tactic(auto)]
