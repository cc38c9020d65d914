// Components, classes and the cuts beside a choice: theory alone, no functions.
#![tactic(auto)]
