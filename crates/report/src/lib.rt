// A file of waits in, the answer out: who is deadlocked in the graph that it says, or its refusal.
#![tactic(auto)]

ghost use Rattle.std.specs.Prelude.{◌≡◌, ◌+◌, replicate};
ghost use Rattle.nodes.specs.Sets.{members};
ghost use Rattle.nodes.specs.Words.{num};
ghost use Rattle.text.specs.Text.{Wrote};
ghost use Rattle.report.specs.Report.{longest, input_of, node_lines, refusal_line, longest_answer, input_is, Gave, Answered};

use deadlock::all_deadlocked;
use lines::refused;
use nodes::Set;
use reader::{Wrong, read_file, told_as};
use text::Text;
use waits::ROW;

// More bytes than a file may have are not looked into.
pub const BYTES: usize = 65_536;

// One byte more than a file may have, so that a longer one is seen to be too long.
const FILE: usize = 65_537;

// No answer is longer: it has a line of at most three bytes for each of at most 64 nodes, or is a refusal of at most 20.
const TEXT: usize = 192;

// Room for a file.
pub fn file_room() -> [u8; FILE]
    ensures { result ≡ replicate (longest + 1) 0 }
{
    [0; FILE]
}

// Room for any answer.
pub fn text_room() -> [u8; TEXT]
    ensures { result ≡ replicate longest_answer 0 }
{
    [0; TEXT]
}

// The members of a set, ascending, one a line.
fn node_lines(out: &mut Text, s: Set)
    ensures { Wrote out.old out.new (node_lines (members (num s))) }
{
    for k in s.members() {
        out.number(k.0 as u64);
        out.put(b'\n');
    }
}

// The line of a refusal.
fn refusal(out: &mut Text, wrong: Wrong)
    ensures { Wrote out.old out.new (refusal_line wrong) }
{
    let told = told_as(Err(wrong));
    refused(out, told.number, told.place);
}

// What a graph is answered with.
fn graph(out: &mut Text, nodes: usize, rows: &[u64])
    ensures { Gave (input_is nodes rows.now) out.old out.new }
{
    match all_deadlocked(nodes, rows) {
        Ok(s) => node_lines(out, s),
        Err(r) => refusal(out, Wrong::Refused(r)),
    }
}

// What a file is answered with.
fn answer(out: &mut Text, file: &[u8])
    ensures { Gave (input_of file.now) out.old out.new }
{
    if BYTES < file.len() {
        return refused(out, 21, 0);
    }
    match read_file(file) {
        Ok(said) => graph(out, said.nodes, &said.rows[..said.nodes * ROW]),
        Err(wrong) => refusal(out, wrong),
    }
}

// Writes the text that answers a file, as far as there is room, and says where it ends.
pub fn report(file: &[u8], room: &mut [u8]) -> usize
    ensures { Answered (input_of file.now) room.old room.new result }
{
    let mut out = Text::new(room);
    answer(&mut out, file);
    out.end
}
