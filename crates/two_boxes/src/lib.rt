// Two boxes of ours, joined: specs/ has what is said of them, proofs/ the proof. No code.
#![tactic(auto)]
