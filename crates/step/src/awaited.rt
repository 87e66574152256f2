// What a node sees of the graph, and whether what it awaits is in.
ghost use Rattle.std.specs.Prelude.{◌≡◌};
ghost use Rattle.nodes.specs.Words.{num};
ghost use Rattle.records.specs.Causes.{why_of, Fits};
ghost use Rattle.records.specs.Records.{state_of};
ghost use Rattle.step.specs.Step.{neighbours as neighbours_of, active as active_of, acked as acked_of, complete as complete_of};
ghost use Rattle.step.specs.Step.{frees as frees_of, newly as newly_of, owed as owed_of};
ghost use Rattle.step.specs.Views.{seen_of};

use nodes::{Node, Set};
use records::{Cause, Kind, Record};
use waits::{Row, holds, out_of};

#[derive(Clone, Copy, Debug, PartialEq, Eq)]
pub struct Own {
    pub me: Node,
    pub row: Row,
    pub ins: Set,
}

impl Own {
    // Who may send a node messages of a kind.
    pub(crate) fn neighbours(self, kind: Kind) -> Set
        ensures { num result ≡ neighbours_of (seen_of self) kind }
    {
        match kind {
            Kind::Notify | Kind::Ack => self.ins,
            Kind::Grant | Kind::Done => out_of(self.row),
        }
    }

    // Whether the node's condition holds with nobody granting.
    pub(crate) fn active(self) -> bool
        ensures { result ≡ active_of (seen_of self) }
    {
        holds(self.row, Set::empty())
    }

    // Whether ACK is in from all IN of a free node.
    #[tactic(auto, unfolding(crate::specs::Step::acked))]
    pub(crate) fn acked(self, r: Record) -> bool
        ensures { result ≡ acked_of (seen_of self) (state_of r) }
    {
        r.freed.happened() && self.ins.inside(r.ack)
    }

    // Whether all is in that a called node awaits.
    #[tactic(auto, unfolding(crate::specs::Step::complete))]
    pub(crate) fn complete(self, r: Record) -> bool
        ensures { result ≡ complete_of (seen_of self) (state_of r) }
    {
        r.call.happened()
            && out_of(self.row).inside(r.done)
            && (!self.active() || self.ins.inside(r.ack))
    }

    // Whether a node that wasn't free has its condition met.
    pub(crate) fn frees(self, r: Record) -> bool
        ensures { result ≡ frees_of (seen_of self) (state_of r) }
    {
        !r.freed.happened() && holds(self.row, r.grant)
    }
}

// Whether something came about in a step.
pub fn newly(before: bool, after: bool) -> bool
    ensures { result ≡ newly_of before after }
{
    !before && after
}

// Who now gets the answer that was held back.
#[tactic(auto, unfolding(crate::specs::Step::owed))]
pub fn owed(now: bool, by: Cause) -> Set
    requires { Fits (why_of by.0) }
    ensures { num result ≡ owed_of now (why_of by.0) }
{
    if now { by.sender() } else { Set::empty() }
}
