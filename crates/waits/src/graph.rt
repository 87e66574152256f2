// A graph of waits whose rows are all there.
ghost use Rattle.std.specs.Prelude.{◌≡◌, ◌<◌};
ghost use Rattle.nodes.specs.Words.{num};
ghost use Rattle.waits.specs.Waits.{in_of};
ghost use Rattle.waits.specs.Waits.{edges as waits_edges};
ghost use Rattle.waits.specs.Rows.{row_at, waits_of, Shaped};

use crate::rows::{Row, out_of, row_at};
use nodes::{Node, Set};

#[derive(Clone, Copy)]
pub struct Graph<'a> {
    pub nodes: usize,
    pub rows: &'a [u64],
    ghost shaped: { Shaped nodes rows.now },
}

impl<'a> Graph<'a> {
    pub fn new(nodes: usize, rows: &'a [u64]) -> Graph<'a>
        requires { Shaped nodes rows.now }
        ensures nodes { result.nodes ≡ nodes }
        ensures rows { result.rows.now ≡ rows.now }
    {
        Graph { nodes, rows }
    }

    // The row of node k.
    pub fn row(self, k: Node) -> Row
        requires { k.0 < self.nodes }
        ensures { result ≡ row_at self.entry.rows.now k.0 }
    {
        row_at(self.rows, k)
    }

    // IN: every node that has j in OUT.
    #[tactic(auto, unfolding(crate::specs::Waits::in_of), using(nodes::proofs::Gather::gather_none))]
    pub fn in_of(self, j: Node) -> Set
        ensures { num result ≡ in_of (waits_of self.entry.nodes self.entry.rows.now) j.0 }
    {
        let mut found = Set::empty();
        for i in 0..self.nodes {
            if out_of(self.row(Node(i))).has(j) {
                found = found.with(Node(i));
            }
        }
        found
    }

    // How many edges there are: members of OUT.
    #[tactic(auto, unfolding(crate::specs::Waits::edges), using(crate::proofs::Cases::edges_none, crate::proofs::Cases::edges_suc))]
    pub fn edges(self) -> u64
        ensures { result ≡ waits_edges (waits_of self.entry.nodes self.entry.rows.now) }
    {
        let mut count: u64 = 0;
        for k in 0..self.nodes {
            count += out_of(self.row(Node(k))).size();
        }
        count
    }
}
