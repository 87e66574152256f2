// Where a piece of a text ends: at a byte, or at CR LF.
ghost use Rattle.std.specs.Prelude.{◌≡◌, ◌+◌, ◌≤◌, ◌<◌, length, get_or, take, drop};
ghost use Rattle.format.specs.Cut.{line_end};
ghost use Rattle.fields.specs.Ends.{up_to, up_to_end};

// Where the first b stands, or the end.
pub fn find(s: &[u8], b: u8) -> usize
    ensures { (result ≡ up_to b s.now) × (result ≤ length s.now) }
{
    s.iter().position(|x| *x == b).unwrap_or(s.len())
}

// Whether CR LF stands at a place.
#[tactic(auto, unfolding(format::specs::Cut::line_end))]
fn ends_at(s: &[u8], i: usize) -> bool
    requires { i + 1 < length s.now }
    ensures { result ≡ line_end (get_or s.now i 0) (get_or s.now (i + 1) 0) }
{
    s[i] == b'\r' && s[i + 1] == b'\n'
}

// Where the first CR LF stands, or the end.
fn line_end(s: &[u8]) -> usize
    ensures { (result ≡ up_to_end s.now) × (result ≤ length s.now) }
{
    // The last byte has no LF behind it.
    for i in 0..s.len().saturating_sub(1) {
        if ends_at(s, i) {
            return i;
        }
    }
    s.len()
}

// The first line of a text, and what stands behind its end.
pub fn first_line(s: &[u8]) -> (&[u8], &[u8])
    ensures { (result.0.now ≡ take (up_to_end s.now) s.now) × (result.1.now ≡ drop (up_to_end s.now + 2) s.now) }
{
    let end = line_end(s);
    (&s[..end], &s[(end + 2).min(s.len())..])
}
