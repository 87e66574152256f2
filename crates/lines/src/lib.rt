// The lines that the programs answer with, written into lent bytes.
#![tactic(auto)]

ghost use Rattle.std.specs.Prelude.{◌≡◌};
ghost use Rattle.text.specs.Text.{Wrote};
ghost use Rattle.lines.specs.Lines.{field as field_of, name_of, answer_line, answer_lines, kind_name, message_line, refused_line, no_script_line};

use text::Text;

// An answer is coded as sent * CODES + code.
const CODES: u64 = 65536;

// A number after a space.
fn field(out: &mut Text, n: u64)
    ensures { Wrote out.old out.new (field_of n) }
{
    out.put(b' ');
    out.number(n);
}

// An answer code's name.
#[tactic(auto, unfolding(crate::specs::Lines::name_of, text::specs::Words::word))]
fn name(out: &mut Text, code: u64)
    ensures { Wrote out.old out.new (name_of code) }
{
    match code {
        100 => out.bytes(b"old"),
        101 => out.bytes(b"stray"),
        102 => out.bytes(b"repeat"),
        110 => out.bytes(b"taken"),
        111 => out.bytes(b"taken deadlocked"),
        112 => out.bytes(b"taken not-deadlocked"),
        120 => out.bytes(b"opened"),
        121 => out.bytes(b"opened deadlocked"),
        122 => out.bytes(b"opened not-deadlocked"),
        _ => {
            out.bytes(b"refused");
            field(out, code);
        }
    }
}

// The line of one answer.
pub fn answer(out: &mut Text, x: u64)
    ensures { Wrote out.old out.new (answer_line x) }
{
    name(out, x % CODES);
    field(out, x / CODES);
    out.put(b'\n');
}

// The lines of a list of answers.
pub fn answers(out: &mut Text, list: &[u64])
    ensures { Wrote out.old out.new (answer_lines list.now) }
{
    for &x in list {
        answer(out, x);
    }
}

// A message kind's name; past the kinds, where there is no message, the last.
#[tactic(auto, unfolding(crate::specs::Lines::kind_name, text::specs::Words::word))]
fn kind_name(kind: u64) -> &'static [u8]
    ensures { result.now ≡ kind_name kind }
{
    match kind {
        0 => b"NOTIFY",
        1 => b"GRANT",
        2 => b"ACK",
        _ => b"DONE",
    }
}

// The line of message k of the list.
pub fn message(out: &mut Text, k: u64, kind: u64, from: u64, to: u64, round: u64)
    ensures { Wrote out.old out.new (message_line k kind from to round) }
{
    out.bytes(b"message");
    field(out, k);
    out.put(b' ');
    out.bytes(kind_name(kind));
    field(out, from);
    field(out, to);
    field(out, round);
    out.put(b'\n');
}

// The line of a refusal as a whole.
pub fn refused(out: &mut Text, n: u64, place: u64)
    ensures { Wrote out.old out.new (refused_line n place) }
{
    out.bytes(b"refused");
    field(out, n);
    field(out, place);
    out.put(b'\n');
}

// The line where the input is no script.
#[tactic(auto, unfolding(crate::specs::Lines::no_script_line, text::specs::Words::word))]
pub fn no_script(out: &mut Text)
    ensures { Wrote out.old out.new no_script_line }
{
    out.bytes(b"refused script\n");
}
