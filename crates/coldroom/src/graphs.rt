// The calls on a whole graph of waits.
ghost use Rattle.std.specs.Prelude.{◌≡◌};
ghost use Rattle.waits.specs.Numbers.{check_of};
ghost use Rattle.deadlock.specs.Claims.{FoundSays, ClaimSays};
ghost use Rattle.deadlock.specs.Evidence.{WrittenSays, judged_of};
ghost use Rattle.deadlock.specs.Ring.{ReportSays};
ghost use Rattle.deadlock.specs.Waiters.{InSays};
ghost use Rattle.coldroom.specs.Results.{checked as checked_number, claim as claim_number, found as found_number, written as written_number};
ghost use Rattle.coldroom.specs.Results.{judged as judged_number, report as report_number};
ghost use Rattle.coldroom.specs.Small.{SmallAnswer};
ghost use Rattle.coldroom.specs.Left.{Says, set_after};

use crate::results::{PLUS, refusal};
use deadlock::{
    Judged, Report, all_deadlocked, check_evidence, deadlocked, ring_report, waiting_on,
    write_evidence,
};
use nodes::{Node, Set};
use waits::{Refusal, check};

// Whether the graph is accepted.
#[unsafe(no_mangle)]
pub extern "C" fn coldroom_check(nodes: usize, rows: &[u64]) -> u64
    ensures { result ≡ checked_number (check_of nodes rows.now) }
{
    match check(nodes, rows) {
        Err(r) => refusal(r),
        Ok(()) => 0,
    }
}

// Whether the claim of a node is deadlocked.
#[tactic(auto, using(crate::proofs::Small::claim_small))]
#[unsafe(no_mangle)]
pub extern "C" fn coldroom_deadlocked(nodes: usize, rows: &[u64], node: usize) -> u64
    ensures { Says (ClaimSays nodes rows.now node) claim_number result }
{
    match deadlocked(nodes, rows, Node(node)) {
        Err(r) => refusal(r),
        Ok(false) => PLUS,
        Ok(true) => PLUS + 1,
    }
}

// Writes a set that was asked for, unless the question is refused.
#[tactic(auto, unfolding(nodes::specs::Words::num))]
fn give(answer: Result<Set, Refusal>, set: &mut u64) -> u64
    requires { SmallAnswer answer }
    ensures { (set.new ≡ set_after set.old answer) × (result ≡ found_number answer) }
{
    match answer {
        Err(r) => refusal(r),
        Ok(s) => {
            *set = s.0;
            PLUS
        }
    }
}

// All deadlocked nodes, as a set.
#[tactic(auto, using(crate::proofs::Small::found_small))]
#[unsafe(no_mangle)]
pub extern "C" fn coldroom_all_deadlocked(nodes: usize, rows: &[u64], set: &mut u64) -> u64
    ensures { Says (λ x. FoundSays nodes rows.now x × (set.new ≡ set_after set.old x)) found_number result }
{
    give(all_deadlocked(nodes, rows), set)
}

// Writes the evidence for a node, a byte for each member.
#[tactic(auto, using(crate::proofs::Small::written_small))]
#[unsafe(no_mangle)]
pub extern "C" fn coldroom_write_evidence(
    nodes: usize,
    rows: &[u64],
    node: usize,
    room: &mut [u8],
) -> u64
    ensures { Says (WrittenSays nodes rows.now node room.old room.new) written_number result }
{
    match write_evidence(nodes, rows, Node(node), room) {
        Err(r) => refusal(r),
        Ok(count) => PLUS + count as u64,
    }
}

// Whether a list passes as evidence for a node; and if it doesn't, why.
#[tactic(auto, using(crate::proofs::Small::member_few))]
#[unsafe(no_mangle)]
pub extern "C" fn coldroom_check_evidence(
    nodes: usize,
    rows: &[u64],
    node: usize,
    list: &[u8],
) -> u64
    ensures { result ≡ judged_number (judged_of nodes rows.now node list.now) }
{
    match check_evidence(nodes, rows, Node(node), list) {
        Err(r) => refusal(r),
        Ok(Judged::Passes) => PLUS + 1,
        Ok(Judged::ClaimMissing) => PLUS + 2,
        Ok(Judged::MemberSatisfied(k)) => PLUS + 256 + k.0 as u64,
    }
}

// Whether a node, if it is deadlocked, is in the ring or behind it.
#[tactic(auto, using(crate::proofs::Small::report_small))]
#[unsafe(no_mangle)]
pub extern "C" fn coldroom_ring(nodes: usize, rows: &[u64], node: usize) -> u64
    ensures { Says (ReportSays nodes rows.now node) report_number result }
{
    match ring_report(nodes, rows, Node(node)) {
        Err(r) => refusal(r),
        Ok(Report::NotDeadlocked) => PLUS,
        Ok(Report::InRing) => PLUS + 1,
        Ok(Report::BehindRing) => PLUS + 2,
    }
}

// IN of a node, as a set: what its controller is to be told.
#[tactic(auto, using(crate::proofs::Small::waiting_small))]
#[unsafe(no_mangle)]
pub extern "C" fn coldroom_in(nodes: usize, rows: &[u64], node: usize, set: &mut u64) -> u64
    ensures { Says (λ x. InSays nodes rows.now node x × (set.new ≡ set_after set.old x)) found_number result }
{
    give(waiting_on(nodes, rows, Node(node)), set)
}
