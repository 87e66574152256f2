// Reads a file of waits from standard input, and writes it to standard output as the writer writes it, or the refusal; and why it is
// refused to standard error, in plain words.
#![tactic(auto)]

ghost use Rattle.std.specs.Prelude.{◌≤◌, length};

use reasons::{reasons, words_room};
use report::file_room;
use rewritten::rewritten;
use streams::answer_input;
use writer::file_room as text_room;

fn explain(file: &[u8], _end: usize, words: &mut [u8]) -> usize
    ensures { result ≤ length words.new }
{
    reasons(file, words)
}

fn main(rt: HostRuntime) {
    answer_input(
        &mut rt.stdin(),
        &mut rt.stdout(),
        &mut rt.stderr(),
        b"rewrite: ",
        &mut file_room(),
        &mut text_room(),
        &mut words_room(),
        rewritten,
        explain,
    );
}
