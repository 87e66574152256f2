// No function: the three demands, and that two runs end alike, as statements over the definitions of the other crates, in specs/, and
// proved, in proofs/.
#![tactic(auto)]
