// When a question about a graph is refused: the graph's numbers, then 9, then 14 and 18 or 15.
ghost use Rattle.std.specs.Prelude.{◌≡◌};
ghost use Rattle.lemmas.specs.Lists.{ascending};
ghost use Rattle.waits.specs.Graph.{GraphSays};
ghost use Rattle.deadlock.specs.Refusals.{strange_entry, check_node_of, check_list_of, check_room_of};
ghost use Rattle.deadlock.specs.Offer.{OfferSays};

use crate::offer::Offer;
use nodes::Node;
use waits::{Graph, Reason, Refusal, refused_if};

// The node that an entry of a list names.
pub fn named(entry: u8) -> Node
    ensures { result.0 ≡ entry }
{
    Node(entry as usize)
}

// A question about node i: the graph, then 9.
#[tactic(auto, using(crate::proofs::Refused::node_check))]
pub fn check_node(nodes: usize, rows: &[u64], i: Node) -> Result<Graph, Refusal>
    ensures { GraphSays (check_node_of nodes rows.now i.0) nodes rows.now result }
{
    let graph = Graph::checked(nodes, rows)?;
    refused_if(nodes <= i.0, Reason::NoNode, Node(0))?;
    Ok(graph)
}

// Number 14.
fn strange_entry(nodes: usize, list: &[u8]) -> bool
    ensures { result ≡ strange_entry nodes list.now }
{
    list.iter().any(|&entry| nodes <= named(entry).0)
}

// Whether each entry of a list is below the next; number 18 if not.
fn ascends(list: &[u8]) -> bool
    ensures { result ≡ ascending list.now }
{
    list.is_sorted_by(|a, b| a < b)
}

// A question about a list for node i: the graph, 9, 14, then 18.
#[tactic(auto, using(crate::proofs::Refused::list_check))]
pub fn check_list<'a>(
    nodes: usize,
    rows: &'a [u64],
    i: Node,
    list: &'a [u8],
) -> Result<Offer<'a>, Refusal>
    ensures { OfferSays (check_list_of nodes rows.now i.0 list.now) nodes rows.now list.now result }
{
    let graph = check_node(nodes, rows, i)?;
    refused_if(strange_entry(nodes, list), Reason::StrangeEntry, Node(0))?;
    refused_if(!ascends(list), Reason::NotAscending, Node(0))?;
    Ok(Offer { graph, list })
}

// A question about node i with lent room: the graph, 9, then 15.
#[tactic(auto, using(crate::proofs::Refused::room_check))]
pub fn check_room(nodes: usize, rows: &[u64], i: Node, room: usize) -> Result<Graph, Refusal>
    ensures { GraphSays (check_room_of nodes rows.now i.0 room) nodes rows.now result }
{
    let graph = check_node(nodes, rows, i)?;
    refused_if(room < nodes, Reason::ShortRoom, Node(0))?;
    Ok(graph)
}
