// Steps and answers in lent lists: one number each.
ghost use Rattle.std.specs.Prelude.{◌≡◌, ◌<◌, ◌≤◌};
ghost use Rattle.step.specs.Answers.{code_of};
ghost use Rattle.lent.specs.Steps.{step_of, answer_number};

use step::{Answer, code};
use waits::Refusal;

// What a bench is asked to do: kind 0 opens node a in round b, kind 1 delivers message a; there are no others.
#[derive(Clone, Copy, Debug, PartialEq, Eq)]
pub struct Step {
    pub kind: u64,
    pub a: u64,
    pub b: u64,
}

// The step that a number stands for.
#[tactic(auto, unfolding(crate::specs::Steps::step_of))]
pub fn step_of(x: u64) -> Step
    ensures { result ≡ step_of x }
{
    Step {
        kind: x / 281_474_976_710_656,
        a: x / 16_777_216 % 16_777_216,
        b: x % 16_777_216,
    }
}

// The number by which an answer is known outside, with the messages sent so far.
#[tactic(auto, unfolding(crate::specs::Steps::answer_number))]
pub fn answer_number(sent: usize, answer: Result<Answer, Refusal>) -> u64
    requires { (sent ≤ 65536) × (code_of answer < 65536) }
    ensures { result ≡ answer_number sent answer }
{
    sent as u64 * 65_536 + code(answer)
}
