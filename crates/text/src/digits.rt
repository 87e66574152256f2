// Digits that are read one after the other: the number with one more of them.
ghost use Rattle.std.specs.Prelude.{◌≡◌};
ghost use Rattle.text.specs.Digits.{grown as grown_of};

// The number with one digit more, where the byte is a digit and the number has 64 bits at most.
pub fn grown(v: u64, b: u8) -> Option<u64>
    ensures { result ≡ grown_of v b }
{
    if !b.is_ascii_digit() {
        return None;
    }
    v.checked_mul(10)?.checked_add((b - b'0') as u64)
}
