// What lists of calls make of a relay: definitions stand in specs/ and theorems in proofs/; there is no code here.
#![tactic(auto)]
