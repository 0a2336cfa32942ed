// A kit of lemmas on integers stands in proofs/; there is no code here.
#![tactic(auto)]
