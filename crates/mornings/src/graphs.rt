// Graphs, row by row. Sets are written in binary: the last digit is node 0.
ghost use Rattle.std.specs.Prelude.{◌≡◌, length};

use crate::parts::checked;
use nodes::{Node, Set};
use std::io;
use waits::ROW;

pub const ACTIVE: [u64; 6] = [0; 6];

// Writes row k of a graph; past the end nothing is written.
pub fn put(rows: &mut [u64], k: usize, row: [u64; 6]) {
    if k < rows.len() / ROW {
        let at = k * ROW;
        rows[at..at + ROW].copy_from_slice(&row);
    }
}

// A node that waits for any one of a set.
pub fn one_of(set: u64) -> [u64; 6] {
    [1, 1, set, 0, 0, 0]
}

// Ten rows, one after the other.
pub fn flat(rows: [[u64; 6]; 10]) -> [u64; 60]
    ensures { length result ≡ 60 }
{
    let mut flat = [0u64; 60];
    flat.copy_from_slice(rows.as_flattened());
    flat
}

// Eight nodes other than k, among the first nine.
fn eight(k: usize) -> Set {
    let other = Set::empty().with(Node(k.min(8)));
    Set::below(9).minus(other)
}

// 64 nodes that wait on eight others each: 512 edges.
pub fn eight_each() -> [u64; 384] {
    let mut rows = [0u64; 384];
    for k in 0..64 {
        put(&mut rows, k, one_of(eight(k).0));
    }
    rows
}

// Puts one more row into a graph of 64 nodes, with a line on it.
pub fn with_row(
    rt: &impl Print,
    label: &str,
    rows: [u64; 384],
    k: usize,
    row: [u64; 6],
) -> io::Result<[u64; 384]> {
    let mut g = rows;
    put(&mut g, k, row);
    checked(rt, label, 64, &g)?;
    Ok(g)
}
