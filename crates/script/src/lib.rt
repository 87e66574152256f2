// A script: its bytes, its numbers, its steps.
#![tactic(auto)]

mod numbers;
mod script;
mod steps;
mod stops;

pub use numbers::read;
pub use script::{BYTES, MOST, NUMBERS, STEPS, Shape, parse};
pub use steps::{KINDS, PARTS};
pub use stops::{Stop, stop_of};
