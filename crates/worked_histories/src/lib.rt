// Demand 3 worked through on histories of numbers and bytes: specs/ has each history and what it comes to, proofs/ computes it. No code.
#![tactic(auto)]
