// Sweeps: every node of a graph visited in turn, over and over, until nobody is new.
ghost use Rattle.std.specs.Prelude.{◌≡◌, ℕ, ◌<◌};
ghost use Rattle.nodes.specs.Sets.{Inside};
ghost use Rattle.nodes.specs.Words.{num};
ghost use Rattle.waits.specs.Waits.{Waits};
ghost use Rattle.waits.specs.Graph.{graph_of};
ghost use Rattle.deadlock.specs.Sweeps.{sweep as sweep_of, sweeps as sweeps_of};

use nodes::{Node, Set};
use waits::Graph;

// Which nodes join a set when a node is visited.
pub trait Visit {
    ghost by: { Self → Waits → ℕ → ℕ → ℕ };

    fn visit(self, graph: Graph, k: Node, g: Set) -> Set
        requires { k.0 < graph.nodes }
        ensures { num result ≡ by self (graph_of graph.entry) k.0 (num g) };
}

// Every node visited in turn.
#[tactic(auto, using(crate::proofs::Sweeps::visiting))]
pub fn sweep<V: Visit + Copy>(graph: Graph, by: V, from: Set) -> Set
    ensures { num result ≡ sweep_of (V.by by (graph_of graph.entry)) graph.entry.nodes (num from) }
{
    let mut g = from;
    for k in 0..graph.nodes {
        g = by.visit(graph, Node(k), g);
    }
    g
}

// The set at which sweeps come to rest. One that adds nobody is the last; as many as there are nodes are enough.
#[tactic(auto, using(crate::proofs::Sweeps::sweeping))]
pub fn settle<V: Visit + Copy>(graph: Graph, by: V, from: Set) -> Set
    requires { (k g : ℕ) → Inside g (V.by by (graph_of graph) k g) }
    ensures { num result ≡ sweeps_of (V.by by (graph_of graph.entry)) graph.entry.nodes graph.entry.nodes (num from) }
{
    let mut g = from;
    for _ in 0..graph.nodes {
        let next = sweep(graph, by, g);
        if next.minus(g).is_empty() {
            return g;
        }
        g = next;
    }
    g
}
