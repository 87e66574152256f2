// The fields of a line, one after the other. A place in a line is where a field starts; behind the last field it is one past the
// line's end, and two past it once something was wrong, so that whoever reads on needs no test.
ghost use Rattle.std.specs.Prelude.{◌≡◌, ◌<◌, ◌≤◌, length, Option, None};
ghost use Rattle.std.specs.Fn.{FnOnceReturnsAt};
ghost use Rattle.format.specs.Fields.{word_in};
ghost use Rattle.reader.specs.Places.{field_at, place_after, answered_at, number_at, set_at};

use fields::{bare, find, number_in, set_in};
use nodes::Set;

// What a field says, and where the next one starts.
#[derive(Clone, Copy, Debug, PartialEq, Eq)]
pub struct At<T> {
    pub value: T,
    pub next: usize,
}

// What the next field says, as `read` reads it without its quotes; zero if there is none, or if it can't be read.
fn read_at<T: Copy, F: FnOnce(&[u8]) -> Option<T>>(
    line: &[u8],
    from: usize,
    zero: T,
    read: F,
) -> At<T>
    requires { F.IsAlwaysCallable read }
    ensures past { length line.now < from → result ≡ answered_at line.now from zero None }
    ensures here { from ≤ length line.now → (o : Option T) × FnOnceReturnsAt F.FnOnce read (field_at line.now from).value o × (result ≡ answered_at line.now from zero o) }
{
    let wrong = At {
        value: zero,
        next: line.len() + 2,
    };
    if line.len() < from {
        return wrong;
    }
    let rest = &line[from..];
    let end = find(rest, b',');
    match read(bare(&rest[..end])) {
        Some(value) => At {
            value,
            next: from + end + 1,
        },
        None => wrong,
    }
}

// The number that is the next field.
pub fn number_at(line: &[u8], from: usize) -> At<u64>
    ensures { result ≡ number_at line.now from }
{
    read_at(line, from, 0, |w| number_in(w))
}

// The set that is the next field.
pub fn set_at(line: &[u8], from: usize) -> At<Set>
    ensures { result ≡ set_at line.now from }
{
    read_at(line, from, Set::empty(), |w| set_in(w))
}

// Passes a word that must be the next field.
pub fn word_at(line: &[u8], from: usize, word: &[u8]) -> usize
    ensures { result ≡ place_after (word_in word.now) line.now from }
{
    read_at(line, from, (), |w| (w == word).then_some(())).next
}
