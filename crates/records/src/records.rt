// A controller's record of its round.
ghost use Rattle.std.specs.Prelude.{◌≡◌, ◌<◌, ◌≤◌};
ghost use Rattle.nodes.specs.Words.{num, places};
ghost use Rattle.nodes.specs.Sets.{with};
ghost use Rattle.records.specs.Records.{state_of, blank_of, had_of, mark_of, in_round, strange_set, strange_record};

use crate::causes::Cause;
use crate::messages::Kind;
use crate::rounds::{LAST, ahead};
use nodes::{Node, Round, Set};

// The round; whether the node is called in it and free in it, and through whom; and whose NOTIFY, GRANT, ACK and DONE it
// has had.
#[derive(Clone, Copy, Debug, PartialEq, Eq)]
pub struct Record {
    pub round: Round,
    pub call: Cause,
    pub freed: Cause,
    pub notify: Set,
    pub grant: Set,
    pub ack: Set,
    pub done: Set,
}

impl Record {
    pub fn blank(round: Round) -> Record
        ensures { state_of result ≡ blank_of round.0 }
    {
        let nobody = Set::empty();
        Record {
            round,
            call: Cause(0),
            freed: Cause(0),
            notify: nobody,
            grant: nobody,
            ack: nobody,
            done: nobody,
        }
    }

    // The record as it stands in a round: blank if it has not come there yet.
    #[tactic(auto, unfolding(crate::specs::Records::in_round))]
    pub fn in_round(self, round: Round) -> Record
        ensures { state_of result ≡ in_round round.0 (state_of self) }
    {
        if ahead(round, self.round) {
            return Record::blank(round);
        }
        self
    }

    // Whose messages of a kind the node has had.
    pub fn had(self, kind: Kind) -> Set
        ensures { num result ≡ had_of kind (state_of self) }
    {
        match kind {
            Kind::Notify => self.notify,
            Kind::Grant => self.grant,
            Kind::Ack => self.ack,
            Kind::Done => self.done,
        }
    }

    // The record with one more sender had.
    pub fn mark(self, kind: Kind, from: Node) -> Record
        requires { from.0 < places }
        ensures { state_of result ≡ mark_of kind from.0 (state_of self) }
    {
        let more = self.had(kind).with(from);
        match kind {
            Kind::Notify => Record {
                notify: more,
                ..self
            },
            Kind::Grant => Record {
                grant: more,
                ..self
            },
            Kind::Ack => Record { ack: more, ..self },
            Kind::Done => Record { done: more, ..self },
        }
    }

    // Number 13, of a record.
    #[tactic(auto, unfolding(crate::specs::Records::strange_record))]
    pub fn strange(self, nodes: usize) -> bool
        ensures { result ≡ strange_record nodes (state_of self) }
    {
        let all = self
            .notify
            .union(self.grant.union(self.ack.union(self.done)));
        LAST < self.round.0
            || self.call.strange(nodes)
            || self.freed.strange(nodes)
            || strange_set(nodes, all)
    }
}

// Whether a set names a node that isn't there.
#[tactic(auto, unfolding(crate::specs::Records::strange_set))]
pub fn strange_set(nodes: usize, s: Set) -> bool
    ensures { result ≡ strange_set nodes (num s) }
{
    !s.among(nodes)
}
