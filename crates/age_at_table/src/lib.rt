// Demand 3 at the table, what a host calls: specs/ has the runs of calls on a table and the claim, proofs/ the theorem. No code.
#![tactic(auto)]
