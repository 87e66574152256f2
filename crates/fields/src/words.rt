// A field without its quotes.
ghost use Rattle.std.specs.Prelude.{◌≡◌};
ghost use Rattle.format.specs.Fields.{bare as bare_of};

// What stands between the quotes of a field, or all of it where it isn't quoted.
pub fn bare(w: &[u8]) -> &[u8]
    ensures { result.now ≡ bare_of w.now }
{
    let end = w.len();
    if end < 2 || w[0] != b'"' || w[end - 1] != b'"' {
        return w;
    }
    &w[1..end - 1]
}
