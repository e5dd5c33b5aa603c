// What the calls promise beyond their equations: no code, definitions and theorems over `calls`.
#![tactic(auto)]
