// Records, messages, steps and answers as numbers, in the lists that callers lend.
#![tactic(auto)]

mod kept;
mod sending;
mod steps;

pub use kept::{RECORD, RECORDS, put_record, record_at, record_numbers, records_room};
pub use sending::{message_of, send, total};
pub use steps::{Step, answer_number, step_of};
