// What the rows of connections and the calls over them promise beyond their equations: no code, definitions and theorems over `row_calls`.
#![tactic(auto)]
