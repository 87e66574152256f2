// No function: the laws of branches, tests and lists that every crate above cites stand in proofs/.
#![tactic(auto)]
