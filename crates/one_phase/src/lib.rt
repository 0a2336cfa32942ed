// One phase's history is its own (document 02, Paper 14): definitions stand in specs/ and theorems in proofs/; there is
// no code here.
#![tactic(auto)]
