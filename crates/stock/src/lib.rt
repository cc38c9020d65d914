// Sites: halls that share one stock of kits. Over every history from a start the kits left are that stock less the opened rows. No code.
#![tactic(auto)]
