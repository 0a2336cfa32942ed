// Document 01's starred bench figures stand in specs/ and their proof in proofs/; there is no code here.
#![tactic(auto)]
