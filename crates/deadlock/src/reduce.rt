// The reduction: which nodes are freed, and which are stuck.
ghost use Rattle.std.specs.Prelude.{◌≡◌, not, ◌&&◌, ◌<◌};
ghost use Rattle.nodes.specs.Sets.{has};
ghost use Rattle.nodes.specs.Words.{num};
ghost use Rattle.waits.specs.Graph.{graph_of};
ghost use Rattle.deadlock.specs.Sweeps.{freeing};
ghost use Rattle.deadlock.specs.Sweeps.{freed as freed_of, stuck as stuck_of};

use crate::visits::{Visit, settle};
use nodes::{Node, Set};
use waits::{Graph, holds};

// Whether node k joins the freed ones: its condition holds with them granting. One that is free already isn't asked again.
fn joins(graph: Graph, freed: Set, k: Node) -> bool
    requires { k.0 < graph.nodes }
    ensures { result ≡ (not (has (num freed) k.0) && (graph_of graph.entry).holds k.0 (num freed)) }
{
    !freed.has(k) && holds(graph.row(k), freed)
}

// A node that is visited joins the freed ones if its condition holds with them granting.
#[derive(Clone, Copy)]
struct Freeing;

impl Visit for Freeing {
    ghost by = { λ s. freeing };

    #[tactic(auto, using(crate::proofs::Reduction::joins, crate::proofs::Reduction::joins_not))]
    fn visit(self, graph: Graph, k: Node, g: Set) -> Set {
        if joins(graph, g, k) {
            return g.with(k);
        }
        g
    }
}

// The nodes that some reduction frees.
#[tactic(auto, unfolding(crate::specs::Sweeps::freed), using(crate::proofs::Reduction::freeing_grows))]
fn freed(graph: Graph) -> Set
    ensures { num result ≡ freed_of (graph_of graph.entry) }
{
    settle(graph, Freeing, Set::empty())
}

// The nodes that no reduction frees.
#[tactic(auto, unfolding(crate::specs::Sweeps::stuck))]
pub fn stuck(graph: Graph) -> Set
    ensures { num result ≡ stuck_of (graph_of graph.entry) }
{
    Set::below(graph.nodes).minus(freed(graph))
}
