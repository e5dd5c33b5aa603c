// One story of two recorded links: specs/ has what is claimed of refilled buffers and of `cut`, proofs/ the theorems. No code.
#![tactic(auto)]
