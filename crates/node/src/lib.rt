// One controller by itself: told the node count, it sees its own row, its IN, its record and a message.
#![tactic(auto)]

mod calls;
mod refusals;
mod told;

pub use calls::{deliver, open};
