// No function: what a file of waits is stands in specs/; that it is RFC 4180, and that writing and reading undo each other, in proofs/.
#![tactic(auto)]
