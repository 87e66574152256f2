// Parts of a line.
use crate::say::refusal;
use std::io;
use waits::Graph;

// What node a line is about.
pub fn about(rt: &impl Print, node: usize) -> io::Result<()> {
    print!(rt; " for {node}: ")
}

// Bytes as numbers, each after a space.
pub fn bytes(rt: &impl Print, list: &[u8]) -> io::Result<()> {
    for b in list {
        print!(rt; " {b}")?;
    }
    if list.is_empty() {
        print!(rt; " none")?;
    }
    Ok(())
}

// The rest of a line: what the graph check says of these rows.
pub fn answer(rt: &impl Print, nodes: usize, rows: &[u64]) -> io::Result<()> {
    match Graph::checked(nodes, rows) {
        Ok(graph) => print!(rt; "accepted, edges {}", graph.edges())?,
        Err(r) => refusal(rt, r)?,
    }
    println!(rt)
}

// A whole line, with its label.
pub fn checked(rt: &impl Print, label: &str, nodes: usize, rows: &[u64]) -> io::Result<()> {
    print!(rt; "{label}: ")?;
    answer(rt, nodes, rows)
}
