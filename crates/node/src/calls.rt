// The two calls of a controller: it opens a round, or a message is delivered to it.
ghost use Rattle.std.specs.Prelude.{◌≡◌};
ghost use Rattle.nodes.specs.Words.{num};
ghost use Rattle.records.specs.Records.{state_of};
ghost use Rattle.step.specs.Views.{outcome_of};
ghost use Rattle.node.specs.Calls.{open_of, deliver_of};

use crate::told::Told;
use nodes::{Node, Round, Set};
use records::{Message, Record};
use step::{Stepped, open_round, receive, still};

// The controller opens a round.
#[tactic(auto, using(crate::proofs::Refused::open_accepted), unfolding(crate::specs::Calls::open_of))]
pub fn open(nodes: usize, me: Node, row: &[u64], ins: Set, kept: Record, round: Round) -> Stepped
    ensures { outcome_of result ≡ open_of nodes me.0 row.now (num ins) (state_of kept) round.0 }
{
    let told = Told {
        nodes,
        me,
        row,
        ins,
        kept,
    };
    match told.check_open(round) {
        Ok(()) => open_round(told.own(), round),
        Err(r) => still(kept, Err(r)),
    }
}

// A message is delivered to the controller.
#[tactic(auto, using(crate::proofs::Refused::deliver_accepted), unfolding(crate::specs::Calls::deliver_of))]
pub fn deliver(
    nodes: usize,
    me: Node,
    row: &[u64],
    ins: Set,
    kept: Record,
    message: Message,
) -> Stepped
    ensures { outcome_of result ≡ deliver_of nodes me.0 row.now (num ins) (state_of kept) message }
{
    let told = Told {
        nodes,
        me,
        row,
        ins,
        kept,
    };
    match told.check_deliver(message) {
        Ok(()) => receive(told.own(), kept, message),
        Err(r) => still(kept, Err(r)),
    }
}
