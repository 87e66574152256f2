// What is wrong with a field: a number, or a set.
ghost use Rattle.std.specs.Prelude.{◌≡◌, ◌<◌, IfOk};
ghost use Rattle.lemmas.specs.Lists.{any_of};
ghost use Rattle.nodes.specs.Words.{places};
ghost use Rattle.format.specs.Fields.{no_digit};
ghost use Rattle.faults.specs.Flaws.{number_flaw, member_in, set_flaw};

use fields::number_in;
use nodes::PLACES;

#[derive(Clone, Copy, Debug, PartialEq, Eq)]
pub enum Flaw {
    // The line has too few fields.
    Missing,
    // A number: it is empty, it has a byte that is no digit, it is past 64 bits.
    Empty,
    NoDigit,
    PastBits,
    // A set: a space too many, a byte that is neither a digit nor a space, a member that a set has no place for, one that is the
    // member before again, one that is below it.
    Spaces,
    Strange,
    NoPlace,
    Twice,
    Descends,
}

// Whether some byte is no digit.
fn strange_in(w: &[u8]) -> bool
    ensures { result ≡ any_of no_digit w.now }
{
    w.iter().any(|b| !b.is_ascii_digit())
}

// What is wrong with a number.
pub fn number_flaw(w: &[u8]) -> Result<(), Flaw>
    ensures { result ≡ number_flaw w.now }
{
    if w.is_empty() {
        return Err(Flaw::Empty);
    }
    if strange_in(w) {
        return Err(Flaw::NoDigit);
    }
    match number_in(w) {
        Some(_) => Ok(()),
        None => Err(Flaw::PastBits),
    }
}

// The member that a piece of text is, or what is wrong with it.
fn member_in(w: &[u8], lowest: u64) -> Result<u64, Flaw>
    ensures is { result ≡ member_in lowest w.now }
    ensures placed { IfOk result (λ m. m < places) }
{
    if w.is_empty() {
        return Err(Flaw::Spaces);
    }
    if strange_in(w) {
        return Err(Flaw::Strange);
    }
    let Some(m) = number_in(w) else {
        return Err(Flaw::NoPlace);
    };
    if PLACES as u64 <= m {
        return Err(Flaw::NoPlace);
    }
    if m + 1 == lowest {
        return Err(Flaw::Twice);
    }
    if m < lowest {
        return Err(Flaw::Descends);
    }
    Ok(m)
}

// What is wrong with a set, of its first piece that is wrong.
pub fn set_flaw(w: &[u8]) -> Result<(), Flaw>
    ensures { result ≡ set_flaw w.now }
{
    if w.is_empty() {
        return Ok(());
    }
    let mut lowest: u64 = 0;
    for piece in w.split(|b| *b == b' ') {
        let m = member_in(piece, lowest)?;
        lowest = m + 1;
    }
    Ok(())
}
