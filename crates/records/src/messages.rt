// Messages: what they hold, and when they can't be.
ghost use Rattle.std.specs.Prelude.{◌≡◌};
ghost use Rattle.records.specs.Messages.{kind_of, strange_message};

use crate::rounds::no_round;
use nodes::{Node, Round};

// How many kinds there are.
const KINDS: u64 = 4;

#[derive(Clone, Copy, Debug, PartialEq, Eq)]
pub enum Kind {
    Notify,
    Grant,
    Ack,
    Done,
}

// A message as it is handed in: any number may stand for its kind.
#[derive(Clone, Copy, Debug, PartialEq, Eq)]
pub struct Message {
    pub kind: u64,
    pub from: Node,
    pub to: Node,
    pub round: Round,
}

// The kind of a number; past the kinds, where no message is accepted, the last.
pub fn kind_of(number: u64) -> Kind
    ensures { result ≡ kind_of number }
{
    match number {
        0 => Kind::Notify,
        1 => Kind::Grant,
        2 => Kind::Ack,
        _ => Kind::Done,
    }
}

impl Message {
    // Number 13, of a message.
    #[tactic(auto, unfolding(crate::specs::Messages::strange_message, nodes::specs::Sets::no_node))]
    pub fn strange(self, nodes: usize) -> bool
        ensures { result ≡ strange_message nodes self }
    {
        KINDS <= self.kind || nodes <= self.from.0 || nodes <= self.to.0 || no_round(self.round)
    }
}
