// A rig of full size, and what the rules give on it: theorems in specs/; no code.
#![tactic(auto)]
