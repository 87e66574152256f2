// A piece of text that is a set: its members ascending, one space between two.
ghost use Rattle.std.specs.Prelude.{◌≡◌, ◌<◌, IfSome};
ghost use Rattle.nodes.specs.Words.{places};
ghost use Rattle.format.specs.Fields.{number_of, set_in};
ghost use Rattle.fields.specs.Answers.{member_of, gathered};

use crate::numbers::number_in;
use nodes::{Node, PLACES, Set};

// The member that a piece of text is: a number that is no lower, and that a set has a place for.
fn member(w: &[u8], lowest: u64) -> Option<u64>
    ensures is { result ≡ member_of lowest (number_of w.now) }
    ensures placed { IfSome result (λ m. m < places) }
{
    let m = number_in(w)?;
    if m < lowest || PLACES as u64 <= m {
        return None;
    }
    Some(m)
}

// The set that a piece of text is. Each member must be above the one before.
pub fn set_in(w: &[u8]) -> Option<Set>
    ensures { result ≡ gathered (set_in w.now) }
{
    let mut s = Set::empty();
    if w.is_empty() {
        return Some(s);
    }
    let mut lowest: u64 = 0;
    for piece in w.split(|b| *b == b' ') {
        let m = member(piece, lowest)?;
        s = s.with(Node(m as usize));
        lowest = m + 1;
    }
    Some(s)
}
