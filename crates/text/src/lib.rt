// Text written into lent bytes, clipped at their end: a byte, bytes, a number in decimal. Digits read are in their own file.
#![tactic(auto)]

ghost use Rattle.std.specs.Prelude.{[], ◌∷◌};
ghost use Rattle.text.specs.Words.{decimal};
ghost use Rattle.text.specs.Text.{Fresh, Wrote};

mod digits;

pub use digits::grown;

// Lent bytes, and how many of them are written.
#[derive(Drop)]
pub struct Text<'a> {
    pub room: &'a mut [u8],
    pub end: usize,
}

impl<'a> Text<'a> {
    // Lent bytes of which none is written yet.
    pub fn new(room: &'a mut [u8]) -> Text<'a>
        ensures { Fresh room.entry result }
    {
        Text { room, end: 0 }
    }

    // Writes a byte at the end, if that is a place.
    pub fn put(&mut self, byte: u8)
        ensures { Wrote self.old self.new (byte ∷ []) }
    {
        if self.end < self.room.len() {
            self.room[self.end] = byte;
            self.end += 1;
        }
    }

    // Writes bytes.
    pub fn bytes(&mut self, b: &[u8])
        ensures { Wrote self.old self.new b.now }
    {
        for &byte in b {
            self.put(byte);
        }
    }

    // Writes a number in decimal: first the digits of its tenth, then its last digit.
    pub fn number(&mut self, n: u64)
        ensures { Wrote self.old self.new (decimal n) }
    {
        if n < 10 {
            self.put(48 + n as u8);
            return;
        }
        self.number(n / 10);
        self.put(48 + (n % 10) as u8);
    }
}
