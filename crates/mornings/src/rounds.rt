// A full round: opened at a node of a fresh bench, every message delivered, in the order of their numbers or in another.
use crate::say::refusal;
use bench::Reply;
use lent::{RECORDS, Step, record_numbers};
use nodes::Round;
use std::io;
use step::{Answer, Verdict};
use waits::Refusal;

// The most messages that a bench holds.
const ROOM: usize = 4_096;

// The later of two verdicts: what an answer says, if it says one.
fn heard(before: Option<Verdict>, answer: Result<Answer, Refusal>) -> Option<Verdict> {
    match answer {
        Ok(Answer::Taken(now) | Answer::Opened(now)) => now.or(before),
        _ => before,
    }
}

fn ended(rt: &impl Print, sent: usize, verdict: Option<Verdict>) -> io::Result<()> {
    let said = match verdict {
        None => "nothing",
        Some(Verdict::Deadlocked) => "deadlocked",
        Some(Verdict::NotDeadlocked) => "not deadlocked",
    };
    print!(rt; "sends {sent} and says {said}")
}

// Which message comes after k others: as the order says, and past its end message k.
fn message(order: &[u8], k: usize) -> u64 {
    match order.get(k) {
        Some(b) => u64::from(*b),
        None => k as u64,
    }
}

// Delivers every message of a round that was opened. An order has each once, so when as many came as were sent, all did.
fn deliver(
    rt: &impl Print,
    nodes: usize,
    rows: &[u64],
    records: &mut [u64],
    messages: &mut [u64],
    opened: Reply,
    order: &[u8],
) -> io::Result<()> {
    let top = opened.highest;
    let mut sent = opened.sent;
    let mut verdict = heard(None, opened.answer);
    for k in 0..ROOM {
        if sent <= k {
            break;
        }
        let s = Step {
            kind: 1,
            a: message(order, k),
            b: 0,
        };
        let reply = bench::step(nodes, rows, records, messages, sent, top, s);
        sent = reply.sent;
        verdict = heard(verdict, reply.answer);
    }
    ended(rt, sent, verdict)
}

// The rest of a line: what a round from a node comes to, on a fresh bench and in an order.
pub fn full_round(
    rt: &impl Print,
    nodes: usize,
    rows: &[u64],
    records: &mut [u64],
    messages: &mut [u64],
    node: usize,
    order: &[u8],
) -> io::Result<()> {
    let s = Step {
        kind: 0,
        a: node as u64,
        b: 1,
    };
    let opened = bench::step(nodes, rows, records, messages, 0, Round(0), s);
    if let Err(r) = opened.answer {
        print!(rt; "is ")?;
        return refusal(rt, r);
    }
    deliver(rt, nodes, rows, records, messages, opened, order)
}

// The part of the records that a graph has.
fn begin(
    rt: &impl Print,
    nodes: usize,
    rows: &[u64],
    records: &mut [u64],
    messages: &mut [u64],
    node: usize,
) -> io::Result<()> {
    let size = record_numbers(nodes);
    if size <= records.len() {
        full_round(rt, nodes, rows, &mut records[..size], messages, node, &[])?;
    }
    Ok(())
}

// The rest of a line: what a round from a node comes to.
pub fn round(rt: &impl Print, nodes: usize, rows: &[u64], node: usize) -> io::Result<()> {
    let mut records = [0u64; RECORDS];
    let mut messages = [0u64; ROOM];
    print!(rt; ", a round ")?;
    begin(rt, nodes, rows, &mut records, &mut messages, node)
}
