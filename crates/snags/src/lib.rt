// Why bytes are no script, as one line of plain words.
#![tactic(auto)]

ghost use Rattle.std.specs.Prelude.{◌≡◌, replicate};
ghost use Rattle.text.specs.Text.{text, write};
ghost use Rattle.snags.specs.Snags.{snag_of, words_for, longest_words};

use crate::finding::snag_in;
use crate::words::words;
use text::Text;

mod finding;
mod words;

// No such line is longer.
const WORDS: usize = 62;

// Room for any such line.
pub fn snag_room() -> [u8; WORDS]
    ensures { result ≡ replicate longest_words 0 }
{
    [0; WORDS]
}

// Writes why bytes are no script, and says where that ends; nothing is written of bytes that are one.
#[tactic(auto, unfolding(crate::specs::Snags::words_for, text::specs::Text::write))]
pub fn snags(script: &[u8], room: &mut [u8]) -> usize
    ensures { text room.new result ≡ write (text room.old 0) (words_for (snag_of script.now)) }
{
    match snag_in(script) {
        Ok(()) => 0,
        Err(snag) => {
            let mut out = Text::new(room);
            words(&mut out, snag);
            out.end
        }
    }
}
