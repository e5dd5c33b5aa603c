// The words in which the tables of the rules are written: specs/ has the definitions, proofs/ their laws. No code.
#![tactic(auto)]
