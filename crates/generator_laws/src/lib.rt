// The laws that join making, writing and reading stand in proofs/; there is no code here.
#![tactic(auto)]
