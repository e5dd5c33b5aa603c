// What the check of a recorder file promises beyond its equations: no code.
#![tactic(auto)]
