// What controllers link, from C or Rust: the calls of the detector over numbers and lent memory. include/coldroom.h says how.
#![tactic(auto)]

mod benches;
mod controllers;
mod graphs;
mod results;
