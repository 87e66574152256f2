// One step of a bench whose state can be: a round is opened, a message is delivered, or neither.
ghost use Rattle.std.specs.Prelude.{◌≡◌, false, ◌+◌, ◌*◌, ◌≤◌, ◌<◌, length, Err};
ghost use Rattle.nodes.specs.Sets.{Inside, below};
ghost use Rattle.nodes.specs.Words.{places};
ghost use Rattle.records.specs.declared.messages.Kind.{Kind};
ghost use Rattle.records.specs.Rounds.{last_round};
ghost use Rattle.records.specs.Messages.{letter_of};
ghost use Rattle.step.specs.Sent.{to_whom};
ghost use Rattle.step.specs.Step.{seen_in};
ghost use Rattle.step.specs.Views.{seen_of, receivers_of, outcome_of};
ghost use Rattle.lent.specs.Kept.{record_size, record_at};
ghost use Rattle.bench.specs.Bench.{after, refusal, most_room};
ghost use Rattle.bench.specs.Strange.{strange_message_on};
ghost use Rattle.bench.specs.Steps.{join as join_of, open_at, arrive_at, deliver_at, take_step};
ghost use Rattle.bench.specs.AtWork.{waits_at, state_at_work, GoodAtWork, SameLists};

use crate::checks::room;
use lent::{Step, message_of, put_record, record_at, send, total};
use nodes::{Node, Round};
use records::{Message, Record, cannot_open};
use step::{Answer, Own, Stepped, open_round, receive};
use waits::{Graph, Reason, Refusal};

// How many messages are sent now, the highest round opened, and the answer.
#[derive(Clone, Copy, Debug, PartialEq, Eq)]
pub struct Reply {
    pub sent: usize,
    pub highest: Round,
    pub answer: Result<Answer, Refusal>,
}

// A bench at work: its graph, each node's record and every message in the lent lists, how many messages are sent, and the highest
// round opened.
#[derive(Drop)]
pub struct AtWork<'a> {
    pub graph: Graph<'a>,
    pub records: &'a mut [u64],
    pub messages: &'a mut [u64],
    pub sent: usize,
    pub highest: Round,
}

// A refusal by a bench is of no row, and gives row 0.
pub fn refuse(reason: Reason) -> Result<Answer, Refusal>
    ensures { result ≡ Err (refusal reason) }
{
    let row = Node(0);
    Err(Refusal { reason, row })
}

impl<'a> AtWork<'a> {
    // What node i sees.
    fn own(&self, i: Node) -> Own
        requires { i.0 < self.now.graph.nodes }
        ensures { seen_of result ≡ seen_in (waits_at self.now) i.0 }
    {
        Own {
            me: i,
            row: self.graph.row(i),
            ins: self.graph.in_of(i),
        }
    }

    // The record of node i.
    fn record(&self, i: Node) -> Record
        requires { i.0 * record_size + record_size ≤ length self.now.records.now }
        ensures { result ≡ record_at self.now.records.now i.0 }
    {
        record_at(self.records, i)
    }

    // What node i did joins the bench, if its messages fit the room; `next` is the highest round then.
    fn join(&mut self, next: Round, i: Node, did: Stepped) -> Result<Answer, Refusal>
        requires { (i.0 * record_size + record_size ≤ length self.old.records.now) × (i.0 < places) × (self.old.sent ≤ most_room) × (did.state.round.0 ≤ last_round) × ((k : Kind) → Inside (to_whom (receivers_of did.sends) k) (below places)) }
        ensures same_lists { SameLists self.old self.new }
        ensures joined { after (state_at_work self.new) result ≡ join_of (state_at_work self.old) next.0 i.0 (outcome_of did) }
    {
        if room(self.messages.len()) < self.sent + total(did.sends) {
            return refuse(Reason::FullRoom);
        }
        put_record(self.records, i, did.state);
        self.sent = send(self.messages, self.sent, i, did.state.round, did.sends);
        self.highest = next;
        did.answer
    }

    #[tactic(auto, unfolding(crate::specs::Steps::open_at, nodes::specs::Sets::no_node))]
    fn open_at(&mut self, i: Node, round: Round) -> Result<Answer, Refusal>
        requires { GoodAtWork self.old }
        ensures same_lists { SameLists self.old self.new }
        ensures opened { after (state_at_work self.new) result ≡ open_at (waits_at self.old) (state_at_work self.old) i.0 round.0 }
    {
        if self.graph.nodes <= i.0 {
            return refuse(Reason::NoNode);
        }
        if cannot_open(self.highest, round) {
            return refuse(Reason::CannotOpen);
        }
        let did = open_round(self.own(i), round);
        self.join(round, i, did)
    }

    #[tactic(auto, unfolding(crate::specs::Steps::arrive_at, lent::specs::Kept::state_at))]
    fn arrive_at(&mut self, m: Message) -> Result<Answer, Refusal>
        requires { GoodAtWork self.old × (strange_message_on self.old.graph.nodes self.old.highest.0 m ≡ false) }
        ensures same_lists { SameLists self.old self.new }
        ensures arrived { after (state_at_work self.new) result ≡ arrive_at (waits_at self.old) (state_at_work self.old) (letter_of m) }
    {
        let did = receive(self.own(m.to), self.record(m.to), m);
        let highest = self.highest;
        self.join(highest, m.to, did)
    }

    #[tactic(auto, unfolding(crate::specs::Steps::deliver_at), using(crate::proofs::Made::good_listed))]
    fn deliver_at(&mut self, k: usize) -> Result<Answer, Refusal>
        requires { GoodAtWork self.old }
        ensures same_lists { SameLists self.old self.new }
        ensures delivered { after (state_at_work self.new) result ≡ deliver_at (waits_at self.old) (state_at_work self.old) k }
    {
        if self.sent <= k {
            return refuse(Reason::NoStep);
        }
        let m = message_of(self.messages[k]);
        self.arrive_at(m)
    }

    // One step, once the state is known to be good.
    #[tactic(auto, unfolding(crate::specs::Steps::take_step))]
    pub fn take_step(&mut self, s: Step) -> Result<Answer, Refusal>
        requires { GoodAtWork self.old }
        ensures same_lists { SameLists self.old self.new }
        ensures taken { after (state_at_work self.new) result ≡ take_step (waits_at self.old) (state_at_work self.old) s }
    {
        match s.kind {
            0 => self.open_at(Node(s.a as usize), Round(s.b)),
            1 => self.deliver_at(s.a as usize),
            _ => refuse(Reason::NoStep),
        }
    }
}
