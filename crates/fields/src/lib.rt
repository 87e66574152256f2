// The pieces of a text: where each ends, and what it says.
#![tactic(auto)]

mod ends;
mod numbers;
mod sets;
mod words;

pub use ends::{find, first_line};
pub use numbers::number_in;
pub use sets::set_in;
pub use words::bare;
