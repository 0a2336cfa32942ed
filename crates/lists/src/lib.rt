// Lists: definitions stand in specs/ and their laws in proofs/; there is no code here.
#![tactic(auto)]
