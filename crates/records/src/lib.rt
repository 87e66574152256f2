// What a controller keeps and what it is told: records and messages, with no graph in sight.
#![tactic(auto)]

mod causes;
mod letters;
mod messages;
mod records;
mod rounds;

pub use causes::{Cause, Why};
pub use letters::Letter;
pub use messages::{Kind, Message, kind_of};
pub use records::{Record, strange_set};
pub use rounds::{LAST, ahead, behind, cannot_open, no_round};
