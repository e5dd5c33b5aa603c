// What is promised of every step over two links: specs/ has the claims, proofs/ the theorems. No code.
#![tactic(auto)]
