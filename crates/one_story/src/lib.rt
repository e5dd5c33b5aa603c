// Two links, one story: specs/ has what the peer sends, how it arrives and is taken, and the claims, proofs/ the theorems. No code.
#![tactic(auto)]
