// When rows are refused: the numbers 1 to 8.
ghost use Rattle.std.specs.Prelude.{◌≡◌, ◌||◌, ◌≤◌, Err};
ghost use Rattle.nodes.specs.Words.{num, places};
ghost use Rattle.waits.specs.Rows.{sets_of, lies_in};
ghost use Rattle.waits.specs.Numbers.{strange_count, wrong_count, wrong_threshold, extra_set, nested, bad_sets, check_row_of, check_of};
ghost use Rattle.waits.specs.Graph.{GraphSays};

use crate::graph::Graph;
use crate::refusals::{Reason, Refusal, refused_if};
use crate::rows::{ROW, Row, later, lies_in, out_of};
use nodes::{Node, PLACES, Set};

// How many edges a graph may have.
pub const EDGES: u64 = 512;

// Whether no graph has this many nodes.
#[tactic(auto, unfolding(crate::specs::Numbers::strange_count))]
pub fn strange_count(nodes: usize) -> bool
    ensures { result ≡ strange_count nodes }
{
    nodes == 0 || PLACES < nodes
}

// Number 1: the count of nodes, or of the numbers in their rows.
#[tactic(auto, unfolding(crate::specs::Numbers::wrong_count), using(crate::proofs::Cases::count_fits))]
fn wrong_count(nodes: usize, numbers: usize) -> bool
    ensures { result ≡ wrong_count nodes numbers }
{
    strange_count(nodes) || numbers != nodes * ROW
}

// Number 5.
#[tactic(auto, unfolding(crate::specs::Numbers::wrong_threshold))]
fn wrong_threshold(row: Row) -> bool
    ensures { result ≡ wrong_threshold row }
{
    if row.kind != 1 {
        return row.threshold != 0;
    }
    row.threshold < 1 || row.first.size() < row.threshold
}

// Number 6.
#[tactic(auto, unfolding(crate::specs::Numbers::extra_set))]
fn extra_set(row: Row) -> bool
    ensures { result ≡ extra_set row }
{
    match row.kind {
        0 => !out_of(row).is_empty(),
        1 => !later(row).is_empty(),
        _ => false,
    }
}

// Whether one of the two is nonempty and lies inside the other.
fn either(s: Set, t: Set) -> bool
    ensures { result ≡ (lies_in (num s) (num t) || lies_in (num t) (num s)) }
{
    lies_in(s, t) || lies_in(t, s)
}

// Whether one nonempty set lies inside another: each of the six pairs.
fn has_nested(row: Row) -> bool
    ensures { result ≡ nested (sets_of row) }
{
    let (a, b, c, d) = (row.first, row.second, row.third, row.fourth);
    either(a, b) || either(a, c) || either(a, d) || either(b, c) || either(b, d) || either(c, d)
}

// Number 7.
#[tactic(auto, unfolding(crate::specs::Numbers::bad_sets))]
fn bad_sets(row: Row) -> bool
    ensures { result ≡ bad_sets row }
{
    row.kind == 2 && (out_of(row).is_empty() || has_nested(row))
}

// The first of 2 to 7 that the row of node k gets.
#[tactic(auto, unfolding(crate::specs::Numbers::check_row_of, crate::specs::Numbers::strange_kind, crate::specs::Numbers::strange_member, crate::specs::Numbers::waits_on_itself))]
pub fn check_row(nodes: usize, k: Node, row: Row) -> Result<(), Refusal>
    ensures { result ≡ check_row_of nodes k.0 row }
{
    let out = out_of(row);
    refused_if(2 < row.kind, Reason::StrangeKind, k)?;
    refused_if(!out.among(nodes), Reason::StrangeMember, k)?;
    refused_if(out.has(k), Reason::WaitsOnItself, k)?;
    refused_if(wrong_threshold(row), Reason::WrongThreshold, k)?;
    refused_if(extra_set(row), Reason::ExtraSet, k)?;
    refused_if(bad_sets(row), Reason::BadSets, k)
}

// The first number that the graph gets, with its row.
#[tactic(auto, using(crate::proofs::Left::checking))]
pub fn check(nodes: usize, rows: &[u64]) -> Result<(), Refusal>
    ensures { result ≡ check_of nodes rows.now }
{
    refused_if(wrong_count(nodes, rows.len()), Reason::WrongCount, Node(0))?;
    let graph = Graph { nodes, rows };
    for k in 0..nodes {
        let row = graph.row(Node(k));
        check_row(nodes, Node(k), row)?;
    }
    refused_if(EDGES < graph.edges(), Reason::ManyEdges, Node(0))
}

impl<'a> Graph<'a> {
    // The graph, or the first number that it gets.
    #[tactic(auto, using(crate::proofs::Table::accepted_shaped))]
    pub fn checked(nodes: usize, rows: &'a [u64]) -> Result<Graph<'a>, Refusal>
        ensures { GraphSays (check_of nodes rows.now) nodes rows.now result }
    {
        check(nodes, rows)?;
        Ok(Graph { nodes, rows })
    }
}
