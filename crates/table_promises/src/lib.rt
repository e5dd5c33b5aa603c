// What the table promises beyond its equations: no code, definitions and theorems over `table`.
#![tactic(auto)]
