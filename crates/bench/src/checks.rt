// Number 13: whether the state of a bench can be.
ghost use Rattle.std.specs.Prelude.{◌≡◌, ◌*◌, ◌≤◌, length};
ghost use Rattle.nodes.specs.Words.{places};
ghost use Rattle.records.specs.Records.{state_of};
ghost use Rattle.lent.specs.Kept.{record_size};
ghost use Rattle.bench.specs.Bench.{bench, room_of};
ghost use Rattle.bench.specs.Strange.{strange_record_on, strange_message_on, strange_records, strange_messages, strange_bench};

use lent::{RECORD, message_of, record_at};
use nodes::{Node, Round};
use records::{LAST, Message, Record, ahead};
use waits::check;

// The most messages that a bench holds.
const MOST: usize = 4_096;

// The room that so many lent places give.
#[tactic(auto, unfolding(crate::specs::Bench::room_of))]
pub fn room(lent: usize) -> usize
    ensures { result ≡ room_of lent }
{
    lent.min(MOST)
}

#[tactic(auto, unfolding(crate::specs::Strange::strange_record_on))]
fn strange_record_on(nodes: usize, highest: Round, r: Record) -> bool
    ensures { result ≡ strange_record_on nodes highest.0 (state_of r) }
{
    r.strange(nodes) || ahead(r.round, highest)
}

#[tactic(auto, unfolding(crate::specs::Strange::strange_message_on))]
fn strange_message_on(nodes: usize, highest: Round, m: Message) -> bool
    ensures { result ≡ strange_message_on nodes highest.0 m }
{
    m.strange(nodes) || ahead(m.round, highest)
}

#[tactic(auto, using(crate::proofs::Made::record_found, crate::proofs::Made::record_passed, crate::proofs::Made::records_passed))]
fn strange_records(nodes: usize, records: &[u64], highest: Round) -> bool
    requires { length records.now ≡ nodes * record_size }
    ensures { result ≡ strange_records nodes highest.0 records.now }
{
    for i in 0..nodes {
        if strange_record_on(nodes, highest, record_at(records, Node(i))) {
            return true;
        }
    }
    false
}

#[tactic(auto, using(lemmas::proofs::Any::any_found, lemmas::proofs::Any::any_ended), unfolding(crate::specs::Strange::strange_messages))]
fn strange_messages(nodes: usize, sent: &[u64], highest: Round) -> bool
    ensures { result ≡ strange_messages nodes highest.0 sent.now }
{
    for &x in sent {
        if strange_message_on(nodes, highest, message_of(x)) {
            return true;
        }
    }
    false
}

#[tactic(auto, unfolding(crate::specs::Strange::strange_bench), using(crate::proofs::Made::graph_shaped, crate::proofs::Made::in_list))]
pub fn strange_bench(
    nodes: usize,
    rows: &[u64],
    records: &[u64],
    messages: &[u64],
    sent: usize,
    highest: Round,
) -> bool
    ensures { result ≡ strange_bench nodes rows.now (bench records.now messages.now sent highest.0) }
{
    if check(nodes, rows).is_err() {
        return true;
    }
    if records.len() != nodes * RECORD || room(messages.len()) < sent {
        return true;
    }
    LAST < highest.0
        || strange_records(nodes, records, highest)
        || strange_messages(nodes, &messages[..sent], highest)
}
