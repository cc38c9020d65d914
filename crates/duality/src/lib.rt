// Weighted cuts bound every joining choice from below, and what equality says. No code.
#![tactic(auto)]
