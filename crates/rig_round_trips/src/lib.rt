// Round trips of rig files: laws alone, no code.
#![tactic(auto)]
