// The round trips of packets and of messages: specs/ has the claims, proofs/ the theorems. No code.
#![tactic(auto)]
