// Laws on lists, tables, loops and tests, with no word of the domain; no code.
#![tactic(auto)]
