// A message that is accepted.
ghost use Rattle.std.specs.Prelude.{◌<◌};
ghost use Rattle.nodes.specs.Words.{places};

use crate::messages::{Kind, Message, kind_of};
use nodes::{Node, Round};

// It is of one of the four kinds, and its sender can be a node: what `Message` leaves open.
#[derive(Clone, Copy, Debug, PartialEq, Eq)]
pub struct Letter {
    pub kind: Kind,
    pub from: Node,
    pub to: Node,
    pub round: Round,
    ghost sent_by_a_node: { from.0 < places },
}

impl Message {
    ghost use Rattle.std.specs.Prelude.{◌≡◌};
    ghost use Rattle.records.specs.Messages.{letter_of, said_by};

    // What an accepted message says.
    pub fn letter(self) -> Letter
        requires { self.from.0 < places }
        ensures { said_by result ≡ letter_of self }
    {
        Letter {
            kind: kind_of(self.kind),
            from: self.from,
            to: self.to,
            round: self.round,
        }
    }
}
