// Standard input and standard output, whole: a read or a write that fails is never taken for an end.
#![tactic(auto)]

ghost use Rattle.std.specs.Prelude.{◌≡◌, ◌<◌, ◌≤◌, length, take, ℕ, OnOk, OnErr, IfErr, Ok, ◌⊎◌};
ghost use Rattle.std.specs.Io.KnownBytes.{Appends, Consumes, Keeps};
ghost use Rattle.std.specs.IoError.{error_kind};
ghost use Rattle.streams.specs.Streams.{Within, Took};

use std::io;
use std::io::{Cursor, Error, ErrorKind, Read, Write};

// How often a read of everything goes on that was interrupted before it moved a byte: a number, so that it ends.
const TRIES: usize = 1000;

// More than any error's words take.
const WORDS: usize = 512;

// That a call which failed is made again: it was interrupted, and tries are left. Otherwise the error.
fn again(why: Error, tries: &mut usize) -> io::Result<()>
    ensures interrupted { OnOk result (error_kind why ≡ ErrorKind.Interrupted) }
    ensures fewer { OnOk result (tries.new < tries.old) }
    ensures error { IfErr result (λ e. e ≡ why) }
{
    if why.kind() != ErrorKind::Interrupted || *tries == 0 {
        return Err(why);
    }
    *tries -= 1;
    Ok(())
}

// Reads until the input ends or the room is full, and says how many bytes stand at the room's start.
pub fn read_all<R: Read>(input: &mut R, room: &mut [u8]) -> io::Result<usize>
    ensures within { Within (length room.new) result }
    ensures took { Took (R.remaining input.old) (R.remaining input.new) room.new result }
{
    let mut done: usize = 0;
    let mut tries: usize = TRIES;
    while done < room.len() {
        match input.read(&mut room[done..]) {
            Ok(0) => return Ok(done),
            Ok(n) => done += n,
            Err(e) => again(e, &mut tries)?,
        }
    }
    Ok(done)
}

// Writes all of a text, or answers with the error; that a write took nothing is one too.
pub fn write_all<W: Write>(output: &mut W, text: &[u8]) -> io::Result<()>
    ensures whole { OnOk result (Appends (W.contents output.old) (W.contents output.new) text.now) }
    ensures part { OnErr result ((n : ℕ) × Appends (W.contents output.old) (W.contents output.new) (take n text.now)) }
{
    let mut done: usize = 0;
    let mut tries: usize = TRIES;
    while done < text.len() {
        match output.write(&text[done..]) {
            Ok(0) => return Err(Error::from(ErrorKind::WriteZero)),
            Ok(n) => done += n,
            Err(e) => again(e, &mut tries)?,
        }
    }
    Ok(())
}

// Writes to standard error what a program has to say, behind its name; nothing if that is nothing.
pub fn say<W: Write>(errors: &mut W, name: &[u8], words: &[u8]) {
    if words.is_empty() {
        return;
    }
    let _ = write_all(errors, name);
    let _ = write_all(errors, words);
}

// Where the words of the system's own error end, before its number in brackets; all of any other's.
fn words_end(words: &[u8], is_of_system: bool) -> usize
    ensures { result ≤ length words.now }
{
    if !is_of_system {
        return words.len();
    }
    match words.iter().rposition(|b| *b == b'(') {
        Some(at) => at.saturating_sub(1),
        None => words.len(),
    }
}

// Writes to standard error what can't be done, and why.
pub fn fail<W: Write>(errors: &mut W, what: &[u8], why: Error) {
    let mut room = [0u8; WORDS];
    let mut words = Cursor::new(&mut room[..]);
    let _ = write!(words, "{why}");
    let length = (words.position() as usize).min(WORDS);
    let end = words_end(&room[..length], why.raw_os_error().is_some());
    let _ = write_all(errors, what);
    let _ = write_all(errors, b": ");
    let _ = write_all(errors, &room[..end]);
    let _ = write_all(errors, b"\n");
}

// The same behind a program's name, in one write with it; of a name and what can't be done as much as there is room for.
fn cannot<W: Write>(errors: &mut W, name: &[u8], what: &[u8], why: Error) {
    let mut room = [0u8; WORDS];
    let mut named = Cursor::new(&mut room[..]);
    let _ = write_all(&mut named, name);
    let _ = write_all(&mut named, what);
    let length = (named.position() as usize).min(WORDS);
    fail(errors, &room[..length], why);
}

// What a program does that answers its input: it reads all of that into a room, writes what answers it, and then says behind its name what
// is to be said of it, or what can't be done.
pub fn answer_input<R: Read, W: Write, E: Write, A, X>(
    input: &mut R,
    output: &mut W,
    errors: &mut E,
    name: &[u8],
    room: &mut [u8],
    text: &mut [u8],
    words: &mut [u8],
    answer: A,
    explain: X,
)
where
    A: FnOnce(&[u8], &mut [u8]) -> usize,
    X: FnOnce(&[u8], usize, &mut [u8]) -> usize,
    requires answers { A.IsAlwaysCallable answer }
    requires answer_ends { (f : _) (t : _) (n : _) (u : _) → A.post answer f t n u → n ≤ length u.now }
    requires explains { X.IsAlwaysCallable explain }
    requires words_end { (f : _) (e : _) (t : _) (n : _) (u : _) → X.post explain f e t n u → n ≤ length u.now }
    ensures read { (n : ℕ) × Consumes (R.remaining input.old) (R.remaining input.new) (take n room.new) }
    ensures wrote { Keeps (W.contents output.old) (W.contents output.new)
        ⊎ ((f : _) × (t : _) × (end : ℕ) × (u : _) × A.post answer f t end u
        × Took (R.remaining input.old) (R.remaining input.new) room.new (Ok (length f.now))
        × (f.now ≡ take (length f.now) room.new) × (t.now ≡ text.old) × (u.now ≡ text.new)
        × ((n : ℕ) × Appends (W.contents output.old) (W.contents output.new) (take n (take end text.new)))) }
{
    let length = match read_all(input, room) {
        Ok(length) => length,
        Err(why) => return cannot(errors, name, b"standard input can't be read", why),
    };
    let end = answer(&room[..length], text);
    match write_all(output, &text[..end]) {
        Ok(()) => {
            let said = explain(&room[..length], end, words);
            say(errors, name, &words[..said]);
        }
        Err(why) => cannot(errors, name, b"the answer can't be written", why),
    }
}
