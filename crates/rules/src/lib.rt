// The rules of the executive are definitions and theorems in specs/; no code.
#![tactic(auto)]
