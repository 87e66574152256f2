// What a node does when it is called, becomes free, or takes a message.
ghost use Rattle.std.specs.Prelude.{◌≡◌};
ghost use Rattle.records.specs.Causes.{why_of};
ghost use Rattle.records.specs.Records.{state_of, Fitting};
ghost use Rattle.step.specs.Step.{become_free, be_called, answer_with, on_notify, on_grant};
ghost use Rattle.step.specs.Step.{react as react_of, verdict_of, settle as settle_of};
ghost use Rattle.step.specs.Views.{seen_of, move_of, end_of};

use crate::answers::Verdict;
use crate::awaited::{Own, newly, owed};
use crate::sends::{Sends, nobody, send};
use nodes::Set;
use records::{Cause, Kind, Letter, Record};
use waits::out_of;

// What a step has done so far.
#[derive(Clone, Copy, Debug, PartialEq, Eq)]
pub struct Did {
    pub state: Record,
    pub sends: Sends,
}

// What it has done in the end.
#[derive(Clone, Copy, Debug, PartialEq, Eq)]
pub struct End {
    pub state: Record,
    pub sends: Sends,
    pub verdict: Option<Verdict>,
}

#[tactic(auto, unfolding(crate::specs::Step::become_free))]
fn become_free(own: Own, by: Cause, r: Record) -> Did
    ensures { move_of result ≡ become_free (seen_of own) (why_of by.0) (state_of r) }
{
    Did {
        state: Record { freed: by, ..r },
        sends: send(Kind::Grant, own.ins),
    }
}

#[tactic(auto, unfolding(crate::specs::Step::be_called))]
pub fn be_called(own: Own, by: Cause, r: Record) -> Did
    ensures { move_of result ≡ be_called (seen_of own) (why_of by.0) (state_of r) }
{
    let called = Record { call: by, ..r };
    if !own.active() {
        return Did {
            state: called,
            sends: send(Kind::Notify, out_of(own.row)),
        };
    }
    if r.freed.happened() {
        return Did {
            state: called,
            sends: nobody(),
        };
    }
    become_free(own, Cause::itself(), called)
}

// An answer to a message's sender that goes at once.
#[tactic(auto, using(nodes::proofs::Operations::with_empty))]
fn answer_with(kind: Kind, m: Letter, r: Record) -> Did
    ensures { move_of result ≡ answer_with kind m.from.0 (state_of r) }
{
    Did {
        state: r,
        sends: send(kind, Set::empty().with(m.from)),
    }
}

#[tactic(auto, unfolding(crate::specs::Step::on_notify))]
fn on_notify(own: Own, m: Letter, r: Record) -> Did
    ensures { move_of result ≡ on_notify (seen_of own) m.from.0 (state_of r) }
{
    if r.call.happened() {
        return answer_with(Kind::Done, m, r);
    }
    be_called(own, Cause::by(m.from), r)
}

#[tactic(auto, unfolding(crate::specs::Step::on_grant))]
fn on_grant(own: Own, m: Letter, r: Record) -> Did
    ensures { move_of result ≡ on_grant (seen_of own) m.from.0 (state_of r) }
{
    if own.frees(r) {
        return become_free(own, Cause::by(m.from), r);
    }
    answer_with(Kind::Ack, m, r)
}

// What a message does that was not had before; its sender is marked already.
pub fn react(own: Own, m: Letter, r: Record) -> Did
    ensures { move_of result ≡ react_of (seen_of own) m.from.0 (state_of r) m.kind }
{
    match m.kind {
        Kind::Notify => on_notify(own, m, r),
        Kind::Grant => on_grant(own, m, r),
        Kind::Ack | Kind::Done => Did {
            state: r,
            sends: nobody(),
        },
    }
}

// What the end of a round says: only its initiator says anything.
#[tactic(auto, unfolding(crate::specs::Step::verdict_of))]
fn verdict(ended: bool, r: Record) -> Option<Verdict>
    ensures { result ≡ verdict_of ended (state_of r) }
{
    if !ended || !r.call.by_itself() {
        return None;
    }
    if r.freed.happened() {
        return Some(Verdict::NotDeadlocked);
    }
    Some(Verdict::Deadlocked)
}

// The answers that were held back, and the verdict, if what they wait for came in with this step.
#[tactic(auto, unfolding(crate::specs::Step::settle))]
pub fn settle(own: Own, before: Record, did: Did) -> End
    requires { Fitting (state_of did.state) }
    ensures { end_of result ≡ settle_of (seen_of own) (state_of before) (move_of did) }
{
    let after = did.state;
    let sends = did.sends;
    let free = newly(own.acked(before), own.acked(after));
    let ended = newly(own.complete(before), own.complete(after));
    let freer = owed(free, after.freed);
    let caller = owed(ended, after.call);
    End {
        state: after,
        sends: Sends {
            ack: sends.ack.union(freer),
            done: sends.done.union(caller),
            ..sends
        },
        verdict: verdict(ended, after),
    }
}
