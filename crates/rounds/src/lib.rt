// No function: that a round is right, as theorems over the definitions of `step`. They stand in proofs/.
#![tactic(auto)]
