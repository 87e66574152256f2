// The bench: every node of a graph and every message ever sent, in lent lists of numbers; its steps, one by one or as a list.
#![tactic(auto)]

mod calls;
mod checks;
mod steps;

pub use calls::{Ran, run, step};
pub use steps::Reply;
