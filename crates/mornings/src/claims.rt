// What is said of every claim of a graph, and what a round from it comes to.
use crate::parts::{bytes, checked};
use crate::rounds::round;
use crate::say::{members, refusal};
use deadlock::Report;
use nodes::{Node, PLACES};
use std::io;

fn claim(rt: &impl Print, nodes: usize, rows: &[u64], k: usize) -> io::Result<()> {
    match deadlock::deadlocked(nodes, rows, Node(k)) {
        Ok(true) => print!(rt; "deadlocked"),
        Ok(false) => print!(rt; "not deadlocked"),
        Err(r) => refusal(rt, r),
    }
}

fn ring(rt: &impl Print, nodes: usize, rows: &[u64], k: usize) -> io::Result<()> {
    match deadlock::ring_report(nodes, rows, Node(k)) {
        Ok(Report::InRing) => print!(rt; "in the ring"),
        Ok(Report::BehindRing) => print!(rt; "behind the ring"),
        Ok(Report::NotDeadlocked) => print!(rt; "no ring"),
        Err(r) => refusal(rt, r),
    }
}

// The room is as large as any graph needs.
fn evidence(rt: &impl Print, nodes: usize, rows: &[u64], k: usize) -> io::Result<()> {
    let mut room = [0u8; PLACES];
    match deadlock::write_evidence(nodes, rows, Node(k), &mut room) {
        Ok(count) => bytes(rt, &room[..count]),
        Err(r) => {
            print!(rt; " ")?;
            refusal(rt, r)
        }
    }
}

// A line on one node: each question that can be asked about it.
pub fn asked(rt: &impl Print, nodes: usize, rows: &[u64], k: usize) -> io::Result<()> {
    print!(rt; "node {k}: ")?;
    claim(rt, nodes, rows, k)?;
    print!(rt; ", ")?;
    ring(rt, nodes, rows, k)?;
    print!(rt; ", evidence")?;
    evidence(rt, nodes, rows, k)?;
    round(rt, nodes, rows, k)?;
    println!(rt)
}

fn each(rt: &impl Print, nodes: usize, rows: &[u64]) -> io::Result<()> {
    for k in 0..nodes {
        print!(rt; "  ")?;
        asked(rt, nodes, rows, k)?;
    }
    Ok(())
}

// What the graph check says, and if it accepts, what is said of all claims and of each.
pub fn morning(rt: &impl Print, label: &str, nodes: usize, rows: &[u64]) -> io::Result<()> {
    checked(rt, label, nodes, rows)?;
    if let Ok(s) = deadlock::all_deadlocked(nodes, rows) {
        print!(rt; "  deadlocked")?;
        members(rt, s)?;
        println!(rt)?;
        each(rt, nodes, rows)?;
    }
    Ok(())
}
