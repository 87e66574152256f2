// A piece of text that is one number.
ghost use Rattle.std.specs.Prelude.{◌≡◌};
ghost use Rattle.format.specs.Fields.{number_of};
ghost use Rattle.fields.specs.Answers.{numbered};

use text::grown;

// The number that a piece of text is. One that would grow past 64 bits is given up at once, so zeros in front cost nothing.
pub fn number_in(w: &[u8]) -> Option<u64>
    ensures { result ≡ numbered (number_of w.now) }
{
    if w.is_empty() {
        return None;
    }
    let mut v: u64 = 0;
    for &b in w {
        v = grown(v, b)?;
    }
    Some(v)
}
