// Why a file of waits is refused, as one line of plain words.
#![tactic(auto)]

ghost use Rattle.std.specs.Prelude.{◌≡◌, replicate};
ghost use Rattle.text.specs.Text.{text, write, Wrote};
ghost use Rattle.reasons.specs.Reasons.{longest_reason, line_reason, graph_reason, reason_of};

use crate::words::{fault_words, number_words, place_words};
use faults::fault_of;
use reader::{Wrong, read_file};
use report::BYTES;
use text::Text;
use waits::Refusal;

mod words;

// No such line is longer.
const WORDS: usize = 88;

// Room for any reason.
pub fn words_room() -> [u8; WORDS]
    ensures { result ≡ replicate longest_reason 0 }
{
    [0; WORDS]
}

// A line that breaks a rule.
fn line_reason(out: &mut Text, file: &[u8], line: usize)
    ensures { Wrote out.old out.new (line_reason file.now line) }
{
    fault_words(out, line, fault_of(file, line));
    out.put(b'\n');
}

// A graph that is refused.
fn graph_reason(out: &mut Text, r: Refusal)
    ensures { Wrote out.old out.new (graph_reason r) }
{
    place_words(out, r);
    out.bytes(number_words(r.reason));
    out.put(b'\n');
}

// Why a file is refused.
fn reason(out: &mut Text, file: &[u8])
    ensures { Wrote out.old out.new (reason_of file.now) }
{
    if BYTES < file.len() {
        return out.bytes(b"the file has more than 65536 bytes\n");
    }
    match read_file(file) {
        Ok(_) => {}
        Err(Wrong::Line(line)) => line_reason(out, file, line),
        Err(Wrong::Refused(r)) => graph_reason(out, r),
    }
}

// Writes why a file is refused, and says where that ends; nothing is written of a file that isn't refused.
pub fn reasons(file: &[u8], room: &mut [u8]) -> usize
    ensures { text room.new result ≡ write (text room.old 0) (reason_of file.now) }
{
    let mut out = Text::new(room);
    reason(&mut out, file);
    out.end
}
