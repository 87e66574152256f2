// Decimal numbers with blanks between them, read from bytes.
ghost use Rattle.std.specs.Prelude.{◌≡◌, ◌<◌, ◌^◌};
ghost use Rattle.script.specs.Numbers.{blank as the_blank, place_after, EndSays, ReadSays};

use text::grown;

// Byte by byte: of that the compiler makes one test, and of `matches!` several.
#[tactic(auto, unfolding(crate::specs::Numbers::blank))]
fn blank(b: u8) -> bool
    ensures { result ≡ the_blank b }
{
    b == b' ' || b == b'\t' || b == b'\n' || b == b'\r'
}

// Where a reader is one byte further: between two numbers, which is no value, or within one, with its value so far. A byte is
// strange if it is neither a digit nor a blank, or if it makes the number too large: then the reader is nowhere.
#[tactic(auto, unfolding(crate::specs::Numbers::place_after))]
pub fn place_after(p: Option<u64>, b: u8) -> Option<Option<u64>>
    ensures { result ≡ place_after p b }
{
    if blank(b) {
        return Some(None);
    }
    Some(Some(grown(p.unwrap_or(0), b)?))
}

// Ends the number under way, if there is one: it goes to the next place, if there is one. Says how many numbers there are.
fn end(p: Option<u64>, numbers: &mut [u64], count: usize) -> usize
    requires { count < 2 ^ 63 }
    ensures { EndSays p numbers.old numbers.new count result }
{
    let Some(v) = p else {
        return count;
    };
    if count < numbers.len() {
        numbers[count] = v;
    }
    count + 1
}

// Reads all numbers of a text into a lent list. There is no count if something else is in the text, or more numbers than places.
pub fn read(script: &[u8], numbers: &mut [u64]) -> Option<usize>
    ensures { ReadSays script.now numbers.old numbers.new result }
{
    let mut count: usize = 0;
    let mut p = None;
    for &b in script {
        let next = place_after(p, b)?;
        if next.is_none() {
            count = end(p, numbers, count);
        }
        p = next;
    }
    count = end(p, numbers, count);
    if numbers.len() < count {
        return None;
    }
    Some(count)
}
