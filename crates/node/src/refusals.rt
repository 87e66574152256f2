// When a controller refuses: 1, 9, its row's numbers, 13, and 10 for an opening.
ghost use Rattle.std.specs.Prelude.{◌≡◌, ◌≤◌, [], ◌∷◌};
ghost use Rattle.nodes.specs.Words.{num, places};
ghost use Rattle.records.specs.Records.{state_of};
ghost use Rattle.waits.specs.Numbers.{line, first_said};
ghost use Rattle.node.specs.Refusals.{wrong_own, strange_kept, check_own_of, check_kept_of, check_open_of, check_deliver_of};

use crate::told::Told;
use nodes::{Node, Round};
use records::{Message, cannot_open, strange_set};
use waits::{ROW, Reason, Refusal, check_row, refused_if, row_at, strange_count};

// Number 1, of one node.
#[tactic(auto, unfolding(crate::specs::Refusals::wrong_own))]
fn wrong_own(nodes: usize, numbers: usize) -> bool
    ensures { result ≡ wrong_own nodes numbers }
{
    strange_count(nodes) || numbers != ROW
}

impl<'a> Told<'a> {
    // The count, the node's own number, and its row: 1, 9, then 2 to 7. The hints here and on `check_kept` spare both calls a copy of all
    // that a controller is told.
    #[inline(always)]
    #[tactic(auto, using(crate::proofs::Refused::right_own), unfolding(crate::specs::Refusals::check_own_of, nodes::specs::Sets::no_node, waits::specs::Numbers::check_row_of))]
    fn check_own(&self) -> Result<(), Refusal>
        ensures { result ≡ check_own_of self.now.nodes self.now.me.0 self.now.row.now }
    {
        refused_if(
            wrong_own(self.nodes, self.row.len()),
            Reason::WrongCount,
            Node(0),
        )?;
        refused_if(self.nodes <= self.me.0, Reason::NoNode, Node(0))?;
        check_row(self.nodes, self.me, row_at(self.row, Node(0)))
    }

    // Number 13, of a record and IN.
    #[tactic(auto, unfolding(crate::specs::Refusals::strange_kept))]
    fn strange_kept(&self) -> bool
        ensures { result ≡ strange_kept self.now.nodes (state_of self.now.kept) (num self.now.ins) }
    {
        self.kept.strange(self.nodes) || strange_set(self.nodes, self.ins)
    }

    // The same, then 13 for what the controller keeps.
    #[inline(always)]
    #[tactic(auto, using(crate::proofs::Last::kept_own, crate::proofs::Last::kept_line, crate::proofs::Refused::own_accepted))]
    fn check_kept(&self) -> Result<(), Refusal>
        ensures { result ≡ check_kept_of self.now.nodes self.now.me.0 self.now.row.now (num self.now.ins) (state_of self.now.kept) }
    {
        self.check_own()?;
        refused_if(self.strange_kept(), Reason::StrangeState, Node(0))
    }

    // An opening: the same, then 10.
    #[tactic(auto, using(crate::proofs::Last::open_kept, crate::proofs::Last::open_line))]
    pub fn check_open(&self, round: Round) -> Result<(), Refusal>
        ensures { result ≡ check_open_of self.now.nodes self.now.me.0 self.now.row.now (num self.now.ins) (state_of self.now.kept) round.0 }
    {
        self.check_kept()?;
        refused_if(
            cannot_open(self.kept.round, round),
            Reason::CannotOpen,
            Node(0),
        )
    }

    // A delivery: the same, then 13 for the message.
    #[tactic(auto, using(crate::proofs::Last::deliver_kept, crate::proofs::Last::deliver_line))]
    pub fn check_deliver(&self, message: Message) -> Result<(), Refusal>
        ensures { result ≡ check_deliver_of self.now.nodes self.now.me.0 self.now.row.now (num self.now.ins) (state_of self.now.kept) message }
    {
        self.check_kept()?;
        refused_if(message.strange(self.nodes), Reason::StrangeState, Node(0))
    }
}
