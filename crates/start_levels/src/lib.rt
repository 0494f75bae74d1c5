// Tables of who can start, level by level, and that they are the answers of the rules; no code.
#![tactic(auto)]
