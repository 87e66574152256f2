// One round in two orders: its messages differ, and so does who called whom; its end is the same.
use crate::rounds::full_round;
use crate::say::members;
use lent::record_at;
use nodes::{Node, Set};
use records::{Cause, Why};
use std::io;
use text::Text;
use transcript::messages;

const NODES: usize = 3;

// 1 = 2 ∧ 3, 2 active, 3 = 1 ∧ 2: the NOTIFY that comes first calls 2, that of 1 or that of 3.
const ROWS: [u64; 18] = [2, 0, 0b110, 0, 0, 0, 0, 0, 0, 0, 0, 0, 2, 0, 0b011, 0, 0, 0];

// Seven numbers for each node.
const KEPT: usize = 21;

// How many messages the round sends, in any order.
const SENT: usize = 12;

// Which message is delivered after which.
const NEWEST_FIRST: [u8; 12] = [1, 3, 5, 6, 4, 7, 8, 2, 9, 10, 0, 11];

// The nodes called, and those free.
fn end(rt: &impl Print, records: &[u64; KEPT]) -> io::Result<()> {
    let mut called = Set::empty();
    let mut free = Set::empty();
    for k in 0..NODES {
        let kept = record_at(records, Node(k));
        if kept.call.happened() {
            called = called.with(Node(k));
        }
        if kept.freed.happened() {
            free = free.with(Node(k));
        }
    }
    print!(rt; ", called")?;
    members(rt, called)?;
    print!(rt; ", free")?;
    members(rt, free)?;
    println!(rt)
}

// A line on a node that another called.
fn caller(rt: &impl Print, k: usize, call: Cause) -> io::Result<()> {
    if let Why::By(c) = Why::from(call) {
        println!(rt; "node {k} called by {}", c.0)?;
    }
    Ok(())
}

// A line on each of them.
fn callers(rt: &impl Print, records: &[u64; KEPT]) -> io::Result<()> {
    for k in 0..NODES {
        let kept = record_at(records, Node(k));
        caller(rt, k, kept.call)?;
    }
    Ok(())
}

// The room is just what the messages take.
fn ordered(rt: &impl Print, label: &str, order: &[u8]) -> io::Result<()> {
    let mut records = [0u64; KEPT];
    let mut sent = [0u64; SENT];
    let mut room = [0u8; 512];
    print!(rt; "{label}: a round ")?;
    full_round(rt, NODES, &ROWS, &mut records, &mut sent, 0, order)?;
    end(rt, &records)?;
    callers(rt, &records)?;
    let mut out = Text::new(&mut room);
    messages(&mut out, &sent);
    let written = out.end;
    rt.write_all(&room[..written])
}

// With no order given, the messages are delivered in the order of their numbers.
pub fn both(rt: &impl Print) -> io::Result<()> {
    ordered(rt, "oldest first", &[])?;
    ordered(rt, "newest first", &NEWEST_FIRST)
}
