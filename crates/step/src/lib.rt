// How one node behaves: an opening, or a message, with nothing refused.
#![tactic(auto)]

mod answers;
mod arrivals;
mod awaited;
mod sends;
mod steps;

pub use answers::{Answer, Stepped, Verdict, code, still};
pub use arrivals::{open_round, receive};
pub use awaited::Own;
pub use sends::Sends;
