// What stands in a file: a byte, a mark at its start, a line.
ghost use Rattle.std.specs.Prelude.{◌≡◌, [], get_or, take};
ghost use Rattle.format.specs.Cut.{lines_of};
ghost use Rattle.format.specs.Fields.{same as same_of};
ghost use Rattle.faults.specs.Faults.{has as Has-of, mark};

use fields::first_line;

// Whether a byte stands in a text.
pub fn has(s: &[u8], b: u8) -> bool
    ensures { result ≡ Has-of b s.now }
{
    s.contains(&b)
}

// Whether a file begins with a byte-order mark.
pub fn marked(file: &[u8]) -> bool
    ensures { result ≡ same_of (take 3 file.now) mark }
{
    file.starts_with(b"\xEF\xBB\xBF")
}

// A line of a file, the first being 0; nothing where there is no such line.
#[tactic(auto, using(crate::proofs::Standing::ahead_start, crate::proofs::Standing::ahead_here, crate::proofs::Standing::ahead_next, crate::proofs::Standing::ahead_none))]
pub fn line_at(file: &[u8], index: usize) -> &[u8]
    ensures { result.now ≡ get_or (lines_of file.now) index [] }
{
    let mut rest = file;
    for _ in 0..index {
        // No line is left, so none is further on.
        if rest.is_empty() {
            return rest;
        }
        rest = first_line(rest).1;
    }
    first_line(rest).0
}
