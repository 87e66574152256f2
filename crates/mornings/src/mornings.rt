// The graphs of the paper's mornings. Papers count nodes from 1, and rows from 0.
use crate::claims::morning;
use crate::graphs::{ACTIVE, eight_each, flat, one_of, put, with_row};
use std::io;
use waits::ROW;

// Document 000, figure 1.
const FIRST: [[u64; 6]; 10] = [
    [2, 0, 0b000_1000, 0b000_0010, 0, 0], // 1 = 4 ∨ 2
    [2, 0, 0b001_1100, 0, 0, 0], // 2 = 3 ∧ 4 ∧ 5
    [2, 0, 0b000_0010, 0b110_0000, 0, 0], // 3 = 2 ∨ (6 ∧ 7)
    [1, 1, 0b100_0000, 0, 0, 0], // 4 = 7
    [2, 0, 0b000_0001, 0b100_0000, 0, 0], // 5 = 1 ∨ 7
    ACTIVE,
    [1, 1, 0b010_0000, 0, 0, 0], // 7 = 6
    ACTIVE,
    ACTIVE,
    ACTIVE,
];

// Document 004's example.
const SECOND: [[u64; 6]; 10] = [
    [2, 0, 0b00_0000_0110, 0b00_0000_1000, 0, 0], // 1 = (2 ∧ 3) ∨ 4
    ACTIVE,
    [2, 0, 0b00_0011_0000, 0b00_0100_0000, 0, 0], // 3 = (5 ∧ 6) ∨ 7
    [2, 0, 0b01_1000_0000, 0, 0, 0], // 4 = 8 ∧ 9
    [1, 1, 0b00_0000_0001, 0, 0, 0], // 5 = 1
    ACTIVE,
    [1, 1, 0b00_0000_1000, 0, 0, 0], // 7 = 4
    [1, 1, 0b00_0100_0000, 0, 0, 0], // 8 = 7
    [2, 0, 0b10_1000_0000, 0b00_0000_0001, 0, 0], // 9 = (8 ∧ 10) ∨ 1
    ACTIVE,
];

const FOURTH: [u64; 12] = [1, 1, 0b10, 0, 0, 0, 1, 1, 0b01, 0, 0, 0]; // 1 = 2, 2 = 1

const SIXTH: [u64; 12] = [1, 1, 0b10, 0, 0, 0, 0, 0, 0, 0, 0, 0]; // 1 = 2, 2 active

const TENTH: [[u64; 6]; 10] = [
    [2, 0, 0b01010, 0, 0, 0], // 1 = 2 ∧ 4
    [1, 1, 0b00100, 0, 0, 0], // 2 = 3
    [1, 1, 0b00010, 0, 0, 0], // 3 = 2
    [2, 0, 0b00001, 0b10000, 0, 0], // 4 = 1 ∨ 5
    ACTIVE,
    ACTIVE,
    ACTIVE,
    ACTIVE,
    ACTIVE,
    ACTIVE,
];

pub fn second() -> [u64; 60] {
    flat(SECOND)
}

// What is said of the claims of the first rows of ten.
fn graph(rt: &impl Print, label: &str, nodes: usize, rows: [[u64; 6]; 10]) -> io::Result<()> {
    let all = flat(rows);
    if nodes <= 10 {
        let end = nodes * ROW;
        morning(rt, label, nodes, &all[..end])?;
    }
    Ok(())
}

pub fn small(rt: &impl Print) -> io::Result<()> {
    graph(rt, "morning 1", 7, FIRST)?;
    graph(rt, "morning 2", 10, SECOND)?;
    morning(rt, "morning 4", 2, &FOURTH)?;
    morning(rt, "morning 5", 1, &ACTIVE)?;
    morning(rt, "morning 6", 2, &SIXTH)?;
    graph(rt, "morning 10", 5, TENTH)
}

// 1 needs some of {2, 3, 4}; 2 active, 3 = 1, 4 = 1.
fn votes(rt: &impl Print, label: &str, needed: u64) -> io::Result<()> {
    let mut g = [0u64; 24];
    put(&mut g, 0, [1, needed, 0b1110, 0, 0, 0]);
    put(&mut g, 2, one_of(0b0001));
    put(&mut g, 3, one_of(0b0001));
    morning(rt, label, 4, &g)
}

pub fn ninth(rt: &impl Print) -> io::Result<()> {
    votes(rt, "morning 9, 2 of 3", 2)?;
    votes(rt, "morning 9, 1 of 3", 1)?;
    votes(rt, "morning 9, 3 of 3", 3)?;
    votes(rt, "morning 9, 0 of 3", 0)?;
    votes(rt, "morning 9, 4 of 3", 4)
}

// The limits: 64 nodes and one more, 512 edges and one more.
pub fn eleventh(rt: &impl Print) -> io::Result<()> {
    morning(rt, "morning 11, 64 nodes", 64, &[0u64; 384])?;
    morning(rt, "morning 11, 65 nodes", 65, &[0u64; 390])?;
    morning(rt, "morning 11, 512 edges", 64, &eight_each())?;
    with_row(
        rt,
        "morning 11, 513 edges",
        eight_each(),
        63,
        one_of(0b1_1111_1111),
    )?;
    Ok(())
}
