// Lists that are offered as evidence in the second morning.
use crate::mornings::second;
use crate::parts::{about, bytes};
use crate::say::refusal;
use deadlock::Judged;
use nodes::Node;
use std::io;

// A line on a list that is offered for a node.
pub fn judged(
    rt: &impl Print,
    nodes: usize,
    rows: &[u64],
    node: usize,
    list: &[u8],
) -> io::Result<()> {
    print!(rt; "list")?;
    bytes(rt, list)?;
    about(rt, node)?;
    match deadlock::check_evidence(nodes, rows, Node(node), list) {
        Ok(Judged::Passes) => print!(rt; "passes")?,
        Ok(Judged::ClaimMissing) => print!(rt; "fails, the claim isn't in it")?,
        Ok(Judged::MemberSatisfied(k)) => print!(rt; "fails at member {}", k.0)?,
        Err(r) => refusal(rt, r)?,
    }
    println!(rt)
}

// In the second morning.
pub fn offered(rt: &impl Print, node: usize, list: &[u8]) -> io::Result<()> {
    judged(rt, 10, &second(), node, list)
}

// Morning 3; its lists in other orders and with repeats, which are refused; and lists that lack the claim, or have a member
// that can move. Some fail in more than one way, so that it is seen which is said.
pub fn third(rt: &impl Print) -> io::Result<()> {
    offered(rt, 0, &[0u8, 2, 3, 4, 6, 7])?;
    offered(rt, 0, &[7u8, 0, 6, 2, 4, 3, 0, 7])?;
    offered(rt, 0, &[0u8, 2, 3, 4, 7, 6])?;
    offered(rt, 0, &[0u8, 2, 3, 4, 6, 7, 7])?;
    offered(rt, 0, &[0u8, 0, 2, 3, 4, 6, 7])?;
    offered(rt, 0, &[0u8, 2, 4])?;
    offered(rt, 0, &[4u8, 2, 0])?;
    offered(rt, 8, &[4u8, 2, 0])?;
    offered(rt, 8, &[0u8, 2, 4])?;
    offered(rt, 8, &[0u8, 2, 3, 4, 6, 7])?;
    offered(rt, 0, &[0u8, 2, 3, 4, 6, 7, 9])?;
    offered(rt, 9, &[9u8])
}

// Morning 12: the empty list, for each node.
pub fn twelfth(rt: &impl Print) -> io::Result<()> {
    let none = [0u8; 0];
    for k in 0..10 {
        offered(rt, k, &none)?;
    }
    Ok(())
}
