// Where a text stops being decimal numbers with blanks between them.
ghost use Rattle.std.specs.Prelude.{◌≡◌, ◌<◌, ◌^◌};
ghost use Rattle.script.specs.Stops.{line_after, stop_at, stop_of};

use crate::numbers::place_after;

// At a line, counted from 1, by a byte that is neither a digit nor a blank, or by a digit that makes a number too large.
#[derive(Clone, Copy, Debug, PartialEq, Eq)]
pub enum Stop {
    Odd(usize),
    Large(usize),
}

// The line that follows a byte.
#[tactic(auto, unfolding(crate::specs::Stops::line_after))]
fn line_after(line: usize, b: u8) -> usize
    requires { line < 2 ^ 63 }
    ensures { result ≡ line_after line b }
{
    if b == b'\n' { line + 1 } else { line }
}

// What a strange byte is.
#[tactic(auto, using(text::proofs::Reading::a_digit, text::proofs::Reading::no_digit), unfolding(crate::specs::Stops::stop_at))]
fn stop_at(line: usize, b: u8) -> Stop
    ensures { result ≡ stop_at line b }
{
    if b.is_ascii_digit() {
        Stop::Large(line)
    } else {
        Stop::Odd(line)
    }
}

// Reads a text up to the first byte that is strange.
#[tactic(auto, using(crate::proofs::Stopping::walk_start, crate::proofs::Stopping::walk_strange, crate::proofs::Stopping::walk_end))]
pub fn stop_of(script: &[u8]) -> Result<(), Stop>
    ensures { result ≡ stop_of script.now }
{
    let mut line: usize = 1;
    let mut p = None;
    for &b in script {
        p = place_after(p, b).ok_or_else(|| stop_at(line, b))?;
        line = line_after(line, b);
    }
    Ok(())
}
