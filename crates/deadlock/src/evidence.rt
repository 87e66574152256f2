// Evidence: written for a claim, and judged when a list is offered.
ghost use Rattle.std.specs.Prelude.{◌≡◌, false, ◌++◌, ◌≤◌, ◌<◌, length, drop};
ghost use Rattle.nodes.specs.Sets.{Inside, below, members, size, set_of};
ghost use Rattle.nodes.specs.Words.{num, places};
ghost use Rattle.waits.specs.Graph.{graph_of};
ghost use Rattle.deadlock.specs.Sweeps.{knot as knot_of};
ghost use Rattle.deadlock.specs.Evidence.{WrittenSays, first_satisfied, judgement, judged_of};

use crate::offer::Offer;
use crate::reach::ahead;
use crate::reduce::stuck;
use crate::refusals::{check_list, check_room, named};
use nodes::{Node, Set};
use waits::{Graph, Refusal, holds};

// What is said of a list that is offered for a claim.
#[derive(Clone, Copy, Debug, PartialEq, Eq)]
pub enum Judged {
    // The claim is in the list, and no member's condition holds when every node outside the list grants.
    Passes,
    // The claim isn't in the list.
    ClaimMissing,
    // The claim is in the list, and this is the first member, in the list's order, whose condition so holds.
    MemberSatisfied(Node),
}

// The evidence for i as a set: the stuck nodes reachable from i, and nobody if i isn't stuck.
#[tactic(auto, unfolding(crate::specs::Sweeps::knot))]
fn knot(graph: Graph, i: Node) -> Set
    requires { i.0 < graph.nodes }
    ensures { num result ≡ knot_of (graph_of graph.entry) i.0 }
{
    let stuck = stuck(graph);
    if !stuck.has(i) {
        return Set::empty();
    }
    stuck.meet(ahead(graph, i).with(i))
}

// Writes the members of a set, ascending, one byte each; the bytes after them stay.
fn write(s: Set, room: &mut [u8]) -> usize
    requires { (size (num s) ≤ length room.old) × Inside (num s) (below places) }
    ensures { (result ≡ size (num s)) × (room.new ≡ members (num s) ++ drop (size (num s)) room.old) }
{
    let mut at: usize = 0;
    for k in s.members() {
        room[at] = k.0 as u8;
        at += 1;
    }
    at
}

// Writes the evidence for i, and says how many bytes it has. The room must have a byte for every node of the graph.
#[tactic(auto, using(crate::proofs::Answers::room_shaped))]
pub fn write_evidence(
    nodes: usize,
    rows: &[u64],
    i: Node,
    room: &mut [u8],
) -> Result<usize, Refusal>
    ensures { WrittenSays nodes rows.now i.0 room.old room.new result }
{
    let graph = check_room(nodes, rows, i, room.len())?;
    Ok(write(knot(graph, i), room))
}

impl<'a> Offer<'a> {
    // The set of the nodes that the list names.
    #[tactic(auto, using(crate::proofs::Cases::naming))]
    fn set_of(self) -> Set
        ensures { num result ≡ set_of self.entry.list.now }
    {
        let mut s = Set::empty();
        for &entry in self.list {
            s = s.with(named(entry));
        }
        s
    }

    // The first member, in the list's order, whose condition holds when the nodes of g grant; with none the list passes.
    #[tactic(auto, using(crate::proofs::Judging::first_walk))]
    fn first_satisfied(self, g: Set) -> Judged
        ensures { result ≡ first_satisfied (graph_of self.entry.graph) (num g) self.entry.list.now }
    {
        for at in 0..self.list.len() {
            let member = named(self.list[at]);
            if holds(self.graph.row(member), g) {
                return Judged::MemberSatisfied(member);
            }
        }
        Judged::Passes
    }

    // What is said of the list when it is offered for i: whether i is in it comes before what its members need.
    #[tactic(auto, unfolding(crate::specs::Evidence::judgement, waits::specs::Deadlocked::outside))]
    fn judge(self, i: Node) -> Judged
        ensures { result ≡ judgement (graph_of self.entry.graph) i.0 self.entry.list.now }
    {
        let all = Set::below(self.graph.nodes);
        let members = self.set_of();
        let outside = all.minus(members);
        if !members.has(i) {
            return Judged::ClaimMissing;
        }
        self.first_satisfied(outside)
    }
}

// Whether a list passes as evidence for i, whoever wrote it; and if it doesn't, why.
#[tactic(auto, using(crate::proofs::Judging::judging))]
pub fn check_evidence(nodes: usize, rows: &[u64], i: Node, list: &[u8]) -> Result<Judged, Refusal>
    ensures { result ≡ judged_of nodes rows.now i.0 list.now }
{
    let offer = check_list(nodes, rows, i, list)?;
    Ok(offer.judge(i))
}
