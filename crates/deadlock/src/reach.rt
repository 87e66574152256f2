// Paths: which nodes they lead to.
ghost use Rattle.std.specs.Prelude.{◌≡◌, ◌<◌};
ghost use Rattle.nodes.specs.Words.{num};
ghost use Rattle.waits.specs.Graph.{graph_of};
ghost use Rattle.deadlock.specs.Sweeps.{reaching, ahead_within};
ghost use Rattle.deadlock.specs.Sweeps.{ahead as ahead_of};

use crate::visits::{Visit, settle};
use nodes::{Node, Set};
use waits::{Graph, out_of};

// If a node that is visited is one of the reached ones, those that it waits on, within a set, join them.
#[derive(Clone, Copy)]
struct Reaching {
    within: Set,
}

impl Visit for Reaching {
    ghost by = { λ s w. reaching w (num s.within) };

    #[tactic(auto, using(crate::proofs::Paths::reaching_no))]
    fn visit(self, graph: Graph, k: Node, g: Set) -> Set {
        if g.has(k) {
            return g.union(self.within.meet(out_of(graph.row(k))));
        }
        g
    }
}

// The nodes to which a path of one or more edges leads from i, all of whose nodes after i are in a set.
#[tactic(auto, unfolding(crate::specs::Sweeps::ahead_within), using(crate::proofs::Paths::reaching_grows))]
pub fn ahead_within(graph: Graph, within: Set, i: Node) -> Set
    requires { i.0 < graph.nodes }
    ensures { num result ≡ ahead_within (graph_of graph.entry) (num within) i.0 }
{
    settle(
        graph,
        Reaching { within },
        within.meet(out_of(graph.row(i))),
    )
}

// The nodes to which any path of one or more edges leads from i.
#[tactic(auto, unfolding(crate::specs::Sweeps::ahead))]
pub fn ahead(graph: Graph, i: Node) -> Set
    requires { i.0 < graph.nodes }
    ensures { num result ≡ ahead_of (graph_of graph.entry) i.0 }
{
    ahead_within(graph, Set::below(graph.nodes), i)
}
