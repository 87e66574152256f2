// The calls of one controller: it opens a round, or a message is delivered to it.
ghost use Rattle.std.specs.Prelude.{◌≡◌};
ghost use Rattle.std.proofs.lemmas.List.Edits.{sets};
ghost use Rattle.step.specs.Views.{receivers_of, outcome_of};
ghost use Rattle.lent.specs.Kept.{state_at};
ghost use Rattle.node.specs.Calls.{open_of, deliver_of};
ghost use Rattle.coldroom.specs.Small.{SmallAnswer};
ghost use Rattle.coldroom.specs.Left.{message, four_sets, Leaves};
ghost use Rattle.coldroom.specs.Left.{done as done_of};

use crate::results::answer;
use lent::{put_record, record_at};
use node::{deliver, open};
use nodes::{Node, Round, Set};
use records::Message;
use step::{Answer, Sends, Stepped};
use waits::Refusal;

// Whether anything was done: a message taken, or a round opened.
fn done(a: Result<Answer, Refusal>) -> bool
    ensures { result ≡ done_of a }
{
    matches!(a, Ok(Answer::Taken(_) | Answer::Opened(_)))
}

// Writes who is sent NOTIFY, GRANT, ACK and DONE.
#[tactic(auto, unfolding(nodes::specs::Words::num))]
fn put_sends(sends: &mut [u64; 4], to: Sends)
    ensures { sends.new ≡ sets sends.old 0 (four_sets (receivers_of to)) }
{
    sends[0] = to.notify.0;
    sends[1] = to.grant.0;
    sends[2] = to.ack.0;
    sends[3] = to.done.0;
}

// Writes what a controller did, if it did anything, and hands back its answer. The hint spares both calls a copy of what a step hands
// back.
#[inline(always)]
fn leave(kept: &mut [u64; 7], sends: &mut [u64; 4], stepped: Stepped) -> u64
    requires { SmallAnswer stepped.answer }
    ensures { Leaves (outcome_of stepped) kept.old sends.old kept.new sends.new result }
{
    if done(stepped.answer) {
        put_record(kept, Node(0), stepped.state);
        put_sends(sends, stepped.sends);
    }
    answer(stepped.answer)
}

// The controller opens a round.
#[tactic(auto, using(crate::proofs::Small::open_answers), unfolding(nodes::specs::Words::num, lent::specs::Kept::state_at))]
#[unsafe(no_mangle)]
pub extern "C" fn coldroom_open(
    nodes: usize,
    me: usize,
    row: &[u64],
    ins: u64,
    kept: &mut [u64; 7],
    round: u64,
    sends: &mut [u64; 4],
) -> u64
    ensures { Leaves (open_of nodes me row.now ins (state_at kept.old 0) round) kept.old sends.old kept.new sends.new result }
{
    let r = record_at(kept, Node(0));
    let stepped = open(nodes, Node(me), row, Set(ins), r, Round(round));
    leave(kept, sends, stepped)
}

// A message is delivered to the controller.
#[tactic(auto, using(crate::proofs::Small::deliver_answers), unfolding(nodes::specs::Words::num, lent::specs::Kept::state_at))]
#[unsafe(no_mangle)]
pub extern "C" fn coldroom_deliver(
    nodes: usize,
    me: usize,
    row: &[u64],
    ins: u64,
    kept: &mut [u64; 7],
    kind: u64,
    from: usize,
    to: usize,
    round: u64,
    sends: &mut [u64; 4],
) -> u64
    ensures { Leaves (deliver_of nodes me row.now ins (state_at kept.old 0) (message kind from to round)) kept.old sends.old kept.new sends.new result }
{
    let r = record_at(kept, Node(0));
    let m = Message {
        kind,
        from: Node(from),
        to: Node(to),
        round: Round(round),
    };
    let stepped = deliver(nodes, Node(me), row, Set(ins), r, m);
    leave(kept, sends, stepped)
}
