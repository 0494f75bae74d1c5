// How the code of an entry over a lent record runs, for any record: laws in proofs/, which no proof needs; no code.
#![tactic(auto)]
