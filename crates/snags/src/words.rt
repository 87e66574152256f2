// The words for a snag, written into lent bytes.
ghost use Rattle.std.specs.Prelude.{Err};
ghost use Rattle.text.specs.Text.{Wrote};
ghost use Rattle.snags.specs.Snags.{placed as Placed-of, counted as Counted-of, words_for};

use crate::finding::Snag;
use text::Text;

// A line or a step, and what is said of it.
fn placed(out: &mut Text, name: &[u8], n: usize, said: &[u8])
    ensures { Wrote out.old out.new (Placed-of name.now n said.now) }
{
    out.bytes(name);
    out.number(n as u64);
    out.bytes(said);
}

// How many numbers there are, and how many are wanted.
fn counted(out: &mut Text, there: usize, least: &[u8], want: usize)
    ensures { Wrote out.old out.new (Counted-of there least.now want) }
{
    out.bytes(b"the count of numbers is ");
    out.number(there as u64);
    out.bytes(least);
    out.number(want as u64);
    out.bytes(b" are wanted\n");
}

// Any snag.
#[tactic(auto, unfolding(crate::specs::Snags::words_for, text::specs::Words::word))]
pub fn words(out: &mut Text, snag: Snag)
    ensures { Wrote out.old out.new (words_for (Err snag)) }
{
    match snag {
        Snag::Long => out.bytes(b"the script has more than 1048576 bytes\n"),
        Snag::Odd(line) => placed(
            out,
            b"line ",
            line,
            b": a character that is neither a digit nor a blank\n",
        ),
        Snag::Large(line) => placed(out, b"line ", line, b": a number past 64 bits\n"),
        Snag::Crowd => out.bytes(b"there are more than 32772 numbers\n"),
        Snag::Few(there, want) => counted(out, there, b", and at least ", want),
        Snag::ManyRows => out.bytes(b"the count of row numbers is above 8192\n"),
        Snag::WideRoom => out.bytes(b"the room is above 8192\n"),
        Snag::ManySteps => out.bytes(b"the count of steps is above 8192\n"),
        Snag::Uneven(there, want) => counted(out, there, b", and ", want),
        Snag::Kind(j) => placed(out, b"step ", j, b": its kind is above 65535\n"),
        Snag::First(j) => placed(out, b"step ", j, b": a is above 16777215\n"),
        Snag::Second(j) => placed(out, b"step ", j, b": b is above 16777215\n"),
    }
}
