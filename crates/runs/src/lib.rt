// Demand 3 of the executive, over runs of its calls: definitions and theorems, no code.
#![tactic(auto)]
