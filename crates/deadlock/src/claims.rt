// Who is deadlocked.
ghost use Rattle.deadlock.specs.Claims.{FoundSays, ClaimSays};

use crate::reduce::stuck;
use crate::refusals::check_node;
use nodes::{Node, Set};
use waits::{Graph, Refusal};

// All deadlocked nodes of a graph.
#[tactic(auto, using(crate::proofs::Answers::found))]
pub fn all_deadlocked(nodes: usize, rows: &[u64]) -> Result<Set, Refusal>
    ensures { FoundSays nodes rows.now result }
{
    let graph = Graph::checked(nodes, rows)?;
    Ok(stuck(graph))
}

// Whether the claim of node i is deadlocked.
#[tactic(auto, using(crate::proofs::Answers::claimed))]
pub fn deadlocked(nodes: usize, rows: &[u64], i: Node) -> Result<bool, Refusal>
    ensures { ClaimSays nodes rows.now i.0 result }
{
    let graph = check_node(nodes, rows, i)?;
    Ok(stuck(graph).has(i))
}
