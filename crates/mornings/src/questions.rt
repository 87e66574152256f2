// Questions about the second morning that are refused, and lent room.
use crate::claims::asked;
use crate::graphs::put;
use crate::lists::{judged, offered};
use crate::mornings::second;
use crate::parts::{about, bytes};
use crate::say::refusal;
use nodes::Node;
use std::io;

// A line on evidence that is written, and on the lent room afterwards.
fn written(
    rt: &impl Print,
    nodes: usize,
    rows: &[u64],
    node: usize,
    room: &mut [u8],
) -> io::Result<()> {
    print!(rt; "room {}", room.len())?;
    about(rt, node)?;
    match deadlock::write_evidence(nodes, rows, Node(node), room) {
        Ok(count) => print!(rt; "{count}")?,
        Err(r) => refusal(rt, r)?,
    }
    print!(rt; ", bytes")?;
    bytes(rt, room)?;
    println!(rt)
}

// Number 9, after the graph's.
pub fn nodes(rt: &impl Print) -> io::Result<()> {
    let rows = second();
    asked(rt, 10, &rows, 10)?;
    asked(rt, 10, &rows, 18_446_744_073_709_551_615)?;
    asked(rt, 9, &rows, 10)
}

// Number 14, after the graph's and 9; each of them before 18, where the list is out of order as well.
pub fn lists(rt: &impl Print) -> io::Result<()> {
    let rows = second();
    offered(rt, 0, &[0u8, 2, 3, 4, 6, 7, 255])?;
    offered(rt, 1, &[10u8])?;
    offered(rt, 0, &[2u8, 0, 10])?;
    offered(rt, 0, &[10u8, 10])?;
    offered(rt, 10, &[10u8])?;
    offered(rt, 10, &[2u8, 0])?;
    judged(rt, 9, &rows, 10, &[10u8])?;
    judged(rt, 9, &rows, 10, &[2u8, 0])
}

// Number 15 is by the node count, and bytes that aren't written stay.
pub fn rooms(rt: &impl Print) -> io::Result<()> {
    let rows = second();
    let mut twelve = [255u8; 12];
    let mut ten = [255u8; 10];
    let mut nine = [255u8; 9];
    written(rt, 10, &rows, 0, &mut nine)?;
    written(rt, 10, &rows, 1, &mut nine)?;
    written(rt, 10, &rows, 10, &mut nine)?;
    written(rt, 9, &rows, 10, &mut nine)?;
    written(rt, 10, &rows, 1, &mut ten)?;
    written(rt, 10, &rows, 0, &mut ten)?;
    written(rt, 10, &rows, 0, &mut twelve)
}

// A bad row is given with its number, whatever is asked.
pub fn bad_row(rt: &impl Print) -> io::Result<()> {
    let mut rows = second();
    let mut room = [255u8; 12];
    put(&mut rows, 4, [3, 0, 0, 0, 0, 0]);
    asked(rt, 10, &rows, 0)?;
    judged(rt, 10, &rows, 0, &[0u8])?;
    judged(rt, 10, &rows, 0, &[1u8, 0])?;
    written(rt, 10, &rows, 0, &mut room)
}
