// What a rig file means: definitions and laws alone, no code.
#![tactic(auto)]
