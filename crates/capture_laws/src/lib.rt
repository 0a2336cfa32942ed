// The laws that join writing and reading stand in proofs/; there is no code here.
#![tactic(auto)]
