// A round is opened, or a message arrives: what a node does when nothing is refused.
ghost use Rattle.std.specs.Prelude.{◌≡◌, ◌<◌};
ghost use Rattle.nodes.specs.Words.{places};
ghost use Rattle.records.specs.Records.{state_of, Fitting};
ghost use Rattle.records.specs.Messages.{letter_of, said_by};
ghost use Rattle.step.specs.Step.{expects as expects_of, stray as stray_of, saying as saying_of, open_round, receive as receive_of};
ghost use Rattle.step.specs.Views.{seen_of, end_of, outcome_of};

use crate::answers::{Answer, Stepped, still};
use crate::awaited::Own;
use crate::steps::{End, be_called, react, settle};
use nodes::Round;
use records::{Cause, Kind, Letter, Message, Record, behind};

// What is handed back at the end of a step.
fn saying(end: End, answer: Answer) -> Stepped
    ensures { outcome_of result ≡ saying_of (λ verdict. answer) (end_of end) }
{
    Stepped {
        state: end.state,
        sends: end.sends,
        answer: Ok(answer),
    }
}

// Opens a round that isn't refused. The hint spares the caller a copy of what is handed back.
#[inline(always)]
#[tactic(auto, using(crate::proofs::Fits::open_fits), unfolding(crate::specs::Step::open_round))]
pub fn open_round(own: Own, round: Round) -> Stepped
    ensures { outcome_of result ≡ open_round (seen_of own) round.0 }
{
    let before = Record::blank(round);
    let end = settle(own, before, be_called(own, Cause::itself(), before));
    saying(end, Answer::Opened(end.verdict))
}

// Whether a message of a kind can answer what this node sent.
fn expects(r: Record, kind: Kind) -> bool
    ensures { result ≡ expects_of (state_of r) kind }
{
    match kind {
        Kind::Notify | Kind::Grant => true,
        Kind::Ack => r.freed.happened(),
        Kind::Done => r.call.happened(),
    }
}

// Whether a message doesn't fit the graph, or the record in the message's round.
#[tactic(auto, unfolding(crate::specs::Step::stray))]
fn stray(own: Own, r: Record, m: Letter) -> bool
    ensures { result ≡ stray_of (seen_of own) (state_of r) (said_by m) }
{
    m.to != own.me || !own.neighbours(m.kind).has(m.from) || !expects(r, m.kind)
}

// Receives an accepted message: it is old, stray, a repeat or taken, the first that fits.
#[tactic(auto, using(crate::proofs::Fits::take_fits), unfolding(crate::specs::Step::receive, crate::specs::Step::arrive, crate::specs::Step::take))]
fn receive_letter(own: Own, r: Record, m: Letter) -> Stepped
    requires { Fitting (state_of r) }
    ensures { outcome_of result ≡ receive_of (seen_of own) (state_of r) (said_by m) }
{
    if behind(m.round, r.round) {
        return still(r, Ok(Answer::Old));
    }
    let before = r.in_round(m.round);
    if stray(own, before, m) {
        return still(r, Ok(Answer::Stray));
    }
    if before.had(m.kind).has(m.from) {
        return still(r, Ok(Answer::Repeat));
    }
    let did = react(own, m, before.mark(m.kind, m.from));
    let end = settle(own, before, did);
    saying(end, Answer::Taken(end.verdict))
}

// Receives a message that isn't refused.
pub fn receive(own: Own, r: Record, m: Message) -> Stepped
    requires { (m.from.0 < places) × Fitting (state_of r) }
    ensures { outcome_of result ≡ receive_of (seen_of own) (state_of r) (letter_of m) }
{
    receive_letter(own, r, m.letter())
}
