// Who is deadlocked, the evidence for it, and the ring; and who waits on a node.
#![tactic(auto)]

mod claims;
mod evidence;
mod offer;
mod reach;
mod reduce;
mod refusals;
mod ring;
mod visits;
mod waiters;

pub use claims::{all_deadlocked, deadlocked};
pub use evidence::{Judged, check_evidence, write_evidence};
pub use ring::{Report, ring_report};
pub use waiters::waiting_on;
