// Demand 3 of what a C program calls: specs/ has the runs of calls over a row and the claim, proofs/ the theorem. No code.
#![tactic(auto)]
