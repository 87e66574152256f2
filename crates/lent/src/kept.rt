// Records in a lent list: seven numbers a node.
ghost use Rattle.std.specs.Prelude.{◌≡◌, ◌+◌, ◌*◌, ◌≤◌, length, replicate};
ghost use Rattle.records.specs.Records.{state_of};
ghost use Rattle.lent.specs.Kept.{record_size, most_records, record_numbers, record_at, put_state};

use nodes::{Node, PLACES, Round, Set};
use records::{Cause, Record};

// How many numbers a record has.
pub const RECORD: usize = 7;

// Seven numbers for each node of the largest graph.
pub const RECORDS: usize = 448;

// Blank records, as many as the largest graph has.
pub fn records_room() -> [u64; RECORDS]
    ensures { result ≡ replicate most_records 0 }
{
    [0; RECORDS]
}

// How many numbers the records of a graph have; one that is too large is refused, whatever its records are.
#[tactic(auto, unfolding(crate::specs::Kept::record_numbers))]
pub fn record_numbers(nodes: usize) -> usize
    ensures { (result ≡ record_numbers nodes) × (result ≤ most_records) }
{
    if PLACES < nodes {
        return 0;
    }
    nodes * RECORD
}

// The record of node i.
#[tactic(auto, unfolding(crate::specs::Kept::record_at))]
pub fn record_at(records: &[u64], i: Node) -> Record
    requires { i.0 * record_size + record_size ≤ length records.now }
    ensures { result ≡ record_at records.now i.0 }
{
    let at = i.0 * RECORD;
    Record {
        round: Round(records[at]),
        call: Cause(records[at + 1]),
        freed: Cause(records[at + 2]),
        notify: Set(records[at + 3]),
        grant: Set(records[at + 4]),
        ack: Set(records[at + 5]),
        done: Set(records[at + 6]),
    }
}

// Writes the record of node i; all others stay.
pub fn put_record(records: &mut [u64], i: Node, r: Record)
    requires { i.0 * record_size + record_size ≤ length records.old }
    ensures { records.new ≡ put_state records.old i.0 (state_of r) }
{
    let at = i.0 * RECORD;
    records[at..at + RECORD].copy_from_slice(&[
        r.round.0, r.call.0, r.freed.0, r.notify.0, r.grant.0, r.ack.0, r.done.0,
    ]);
}
