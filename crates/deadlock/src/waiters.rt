// Who waits on a node: its IN, which its controller is to be told.
ghost use Rattle.deadlock.specs.Waiters.{InSays};

use crate::refusals::check_node;
use nodes::{Node, Set};
use waits::Refusal;

// IN of node i.
pub fn waiting_on(nodes: usize, rows: &[u64], i: Node) -> Result<Set, Refusal>
    ensures { InSays nodes rows.now i.0 result }
{
    let graph = check_node(nodes, rows, i)?;
    Ok(graph.in_of(i))
}
