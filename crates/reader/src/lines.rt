// The lines of a file: its header, and the row of a node.
ghost use Rattle.std.specs.Prelude.{◌≡◌};
ghost use Rattle.format.specs.Files.{is_header, row_of};
ghost use Rattle.reader.specs.Answers.{row_said};

use crate::places::{number_at, set_at, word_at};
use waits::Row;

pub fn header(line: &[u8]) -> bool
    ensures { result ≡ is_header line.now }
{
    let a = word_at(line, 0, b"node");
    let b = word_at(line, a, b"kind");
    let c = word_at(line, b, b"threshold");
    let d = word_at(line, c, b"set1");
    let e = word_at(line, d, b"set2");
    let f = word_at(line, e, b"set3");
    let g = word_at(line, f, b"set4");
    g == line.len() + 1
}

// The row that a line says node k has.
pub fn row(line: &[u8], k: usize) -> Option<Row>
    ensures { result ≡ row_said (row_of k line.now) }
{
    let node = number_at(line, 0);
    let kind = number_at(line, node.next);
    let threshold = number_at(line, kind.next);
    let first = set_at(line, threshold.next);
    let second = set_at(line, first.next);
    let third = set_at(line, second.next);
    let fourth = set_at(line, third.next);
    if fourth.next != line.len() + 1 || node.value != k as u64 {
        return None;
    }
    Some(Row {
        kind: kind.value,
        threshold: threshold.value,
        first: first.value,
        second: second.value,
        third: third.value,
        fourth: fourth.value,
    })
}
