// Bad graphs of every kind, for each number of the table.
use crate::graphs::{eight_each, one_of, put, with_row};
use crate::parts::{answer, checked};
use std::io;

// The largest number that can be handed in, and the last place of a set.
const ALL: u64 = 18_446_744_073_709_551_615;

const LAST: u64 = 9_223_372_036_854_775_808;

// The rows that are tried: each the first of three nodes, of which the others are active.
const ROWS: [[u64; 6]; 36] = [
    // kind above 2
    [3, 0, 0, 0, 0, 0],
    [ALL, 0, 0, 0, 0, 0],
    // a member that is no node, at any kind and in any set
    [1, 1, 0b1000, 0, 0, 0],
    [2, 0, 0b10, 0, 0, LAST],
    [2, 0, ALL, 0, 0, 0],
    [0, 0, 0, 0b1000, 0, 0],
    [1, 1, 0b10, 0b1000, 0, 0],
    // a node that waits on itself, at any kind and in any set
    [1, 1, 0b1, 0, 0, 0],
    [2, 0, 0b10, 0, 0, 0b101],
    [0, 0, 0b1, 0, 0, 0],
    // a threshold where none may be, of 0, too large; of nobody there is no right one
    [0, 1, 0, 0, 0, 0],
    [1, 0, 0b110, 0, 0, 0],
    [1, 1, 0b110, 0, 0, 0],
    [1, 2, 0b110, 0, 0, 0],
    [1, 3, 0b110, 0, 0, 0],
    [1, ALL, 0b110, 0, 0, 0],
    [1, 0, 0, 0, 0, 0],
    [1, 1, 0, 0, 0, 0],
    [2, 1, 0b110, 0, 0, 0],
    // sets where none may be
    [0, 0, 0b10, 0, 0, 0],
    [0, 0, 0, 0, 0, 0b10],
    [1, 1, 0b110, 0b10, 0, 0],
    [1, 1, 0b110, 0, 0b10, 0],
    [1, 1, 0b110, 0, 0, 0b10],
    // no nonempty set; one inside another, either way round; two that are equal
    [2, 0, 0, 0, 0, 0],
    [2, 0, 0b10, 0b110, 0, 0],
    [2, 0, 0b110, 0b10, 0, 0],
    [2, 0, 0b10, 0, 0b110, 0],
    [2, 0, 0b10, 0, 0, 0b110],
    [2, 0, 0, 0b10, 0b110, 0],
    [2, 0, 0, 0b110, 0, 0b10],
    [2, 0, 0, 0, 0b110, 0b110],
    // two sets side by side, and empty ones before one, are fine
    [2, 0, 0b10, 0b100, 0, 0],
    [2, 0, 0, 0, 0b110, 0],
    [2, 0, 0, 0b100, 0, 0b10],
    [0, 0, 0, 0, 0, 0],
];

// A row's six numbers.
fn spelled(rt: &impl Print, row: [u64; 6]) -> io::Result<()> {
    for n in &row {
        print!(rt; " {n}")?;
    }
    Ok(())
}

// A line: the row, and the answer.
fn try_row(rt: &impl Print, row: [u64; 6]) -> io::Result<()> {
    let mut g = [0u64; 18];
    put(&mut g, 0, row);
    print!(rt; "row")?;
    spelled(rt, row)?;
    print!(rt; ": ")?;
    answer(rt, 3, &g)
}

pub fn rows(rt: &impl Print) -> io::Result<()> {
    for row in &ROWS {
        try_row(rt, *row)?;
    }
    Ok(())
}

// Number 1.
pub fn counts(rt: &impl Print) -> io::Result<()> {
    let none = [0u64; 0];
    checked(rt, "no nodes", 0, &none)?;
    checked(rt, "no nodes and a row", 0, &[0u64; 6])?;
    checked(rt, "65 nodes", 65, &[0u64; 390])?;
    checked(
        rt,
        "the largest count of nodes",
        18_446_744_073_709_551_615,
        &[0u64; 6],
    )?;
    checked(rt, "two nodes and no row", 2, &none)?;
    checked(rt, "two nodes and one row", 2, &[0u64; 6])?;
    checked(rt, "two nodes and three rows", 2, &[0u64; 18])?;
    checked(rt, "one node and five numbers", 1, &[0u64; 5])?;
    checked(rt, "one node and seven numbers", 1, &[0u64; 7])
}

// The order: rows ascending, each number in order, and number 8 after all rows.
pub fn order(rt: &impl Print) -> io::Result<()> {
    let many = with_row(rt, "513 edges", eight_each(), 63, one_of(0b1_1111_1111))?;
    let none = with_row(
        rt,
        "and a threshold of 0 in row 60",
        many,
        60,
        [1, 0, 0b1, 0, 0, 0],
    )?;
    let empty = with_row(rt, "and no set in row 40", none, 40, [2, 0, 0, 0, 0, 0])?;
    let kind = with_row(rt, "and kind 3 in row 41", empty, 41, [3, 0, 0, 0, 0, 0])?;
    with_row(
        rt,
        "and everything wrong in row 40",
        kind,
        40,
        [3, ALL, ALL, ALL, ALL, ALL],
    )?;
    Ok(())
}
