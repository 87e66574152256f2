// What a controller answers.
ghost use Rattle.std.specs.Prelude.{◌≡◌};
ghost use Rattle.records.specs.Records.{state_of};
ghost use Rattle.step.specs.Answers.{verdict_code, code_of};
ghost use Rattle.step.specs.Step.{still as still_of};
ghost use Rattle.step.specs.Views.{outcome_of};

use crate::sends::{Sends, nobody};
use records::Record;
use waits::Refusal;

// How a round ended. While it is open, a step says nothing of it.
#[derive(Clone, Copy, Debug, PartialEq, Eq)]
pub enum Verdict {
    Deadlocked,
    NotDeadlocked,
}

// What a call that isn't refused comes to.
#[derive(Clone, Copy, Debug, PartialEq, Eq)]
pub enum Answer {
    Old,
    Stray,
    Repeat,
    Taken(Option<Verdict>),
    Opened(Option<Verdict>),
}

// The next record, who is sent what, and the answer.
#[derive(Clone, Copy, Debug, PartialEq, Eq)]
pub struct Stepped {
    pub state: Record,
    pub sends: Sends,
    pub answer: Result<Answer, Refusal>,
}

fn verdict_code(v: Option<Verdict>) -> u64
    ensures { result ≡ verdict_code v }
{
    match v {
        None => 0,
        Some(Verdict::Deadlocked) => 1,
        Some(Verdict::NotDeadlocked) => 2,
    }
}

// The number by which an answer is known outside.
pub fn code(answer: Result<Answer, Refusal>) -> u64
    ensures { result ≡ code_of answer }
{
    match answer {
        Err(r) => r.reason.number(),
        Ok(Answer::Old) => 100,
        Ok(Answer::Stray) => 101,
        Ok(Answer::Repeat) => 102,
        Ok(Answer::Taken(v)) => 110 + verdict_code(v),
        Ok(Answer::Opened(v)) => 120 + verdict_code(v),
    }
}

// The record stays and nothing is sent.
pub fn still(r: Record, answer: Result<Answer, Refusal>) -> Stepped
    ensures { outcome_of result ≡ still_of (state_of r) answer }
{
    Stepped {
        state: r,
        sends: nobody(),
        answer,
    }
}
