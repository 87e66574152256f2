// The reader of a file of waits: its fields, its lines, the whole file.
#![tactic(auto)]

mod files;
mod lines;
mod places;

pub use files::{File, Told, Wrong, read_file, told_as};
