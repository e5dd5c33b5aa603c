// Demand 3, how old a message handed up can truly be: specs/ has the premises and the claim, proofs/ the theorem. No code.
#![tactic(auto)]
