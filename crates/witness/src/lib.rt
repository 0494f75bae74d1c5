// A right rig exists, and runs of it: what the promises say is said of something. Definitions and theorems, no code.
#![tactic(auto)]
