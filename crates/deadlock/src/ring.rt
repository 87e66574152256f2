// The ring report: where a deadlocked claim stands.
ghost use Rattle.deadlock.specs.Ring.{ReportSays};

use crate::reach::ahead_within;
use crate::reduce::stuck;
use crate::refusals::check_node;
use nodes::Node;
use waits::Refusal;

#[derive(Clone, Copy, Debug, PartialEq, Eq)]
pub enum Report {
    InRing,
    BehindRing,
    NotDeadlocked,
}

// Whether node i, if it is deadlocked, is in the ring or behind it.
#[tactic(auto, using(crate::proofs::Answers::reporting))]
pub fn ring_report(nodes: usize, rows: &[u64], i: Node) -> Result<Report, Refusal>
    ensures { ReportSays nodes rows.now i.0 result }
{
    let graph = check_node(nodes, rows, i)?;
    let stuck = stuck(graph);
    if !stuck.has(i) {
        return Ok(Report::NotDeadlocked);
    }
    if ahead_within(graph, stuck, i).has(i) {
        return Ok(Report::InRing);
    }
    Ok(Report::BehindRing)
}
