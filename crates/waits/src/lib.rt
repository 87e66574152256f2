// The graph of waits: what rows mean, and when they are refused.
#![tactic(auto)]

mod graph;
mod numbers;
mod refusals;
mod rows;

pub use graph::Graph;
pub use numbers::{EDGES, check, check_row, strange_count};
pub use refusals::{Reason, Refusal, refused, refused_if};
pub use rows::{ROW, Row, holds, out_of, put_row, row_at};
