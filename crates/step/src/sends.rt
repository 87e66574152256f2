// Who is sent what in a step: the receivers of each kind of message.
ghost use Rattle.std.specs.Prelude.{◌≡◌};
ghost use Rattle.nodes.specs.Words.{num};
ghost use Rattle.step.specs.Step.{nobody as to_nobody, sending};
ghost use Rattle.step.specs.Views.{receivers_of};

use nodes::Set;
use records::Kind;

#[derive(Clone, Copy, Debug, PartialEq, Eq)]
pub struct Sends {
    pub notify: Set,
    pub grant: Set,
    pub ack: Set,
    pub done: Set,
}

pub fn nobody() -> Sends
    ensures { receivers_of result ≡ to_nobody }
{
    let none = Set::empty();
    Sends {
        notify: none,
        grant: none,
        ack: none,
        done: none,
    }
}

// Messages of one kind.
pub fn send(kind: Kind, to: Set) -> Sends
    ensures { receivers_of result ≡ sending kind (num to) }
{
    let none = nobody();
    match kind {
        Kind::Notify => Sends { notify: to, ..none },
        Kind::Grant => Sends { grant: to, ..none },
        Kind::Ack => Sends { ack: to, ..none },
        Kind::Done => Sends { done: to, ..none },
    }
}
