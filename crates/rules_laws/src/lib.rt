// What follows from the rules of the executive: theorems in specs/ and proofs/; no code.
#![tactic(auto)]
