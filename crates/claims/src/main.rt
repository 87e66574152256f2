// Reads a file of waits from standard input, and writes who is deadlocked to standard output, or the refusal; and to standard error why it
// is refused, or that nobody is deadlocked, in plain words.
#![tactic(auto)]

ghost use Rattle.std.specs.Prelude.{◌≤◌, length};

use reasons::{reasons, words_room};
use report::{file_room, report, text_room};
use streams::answer_input;
use text::Text;

// Only a graph in which nobody is deadlocked has an empty answer.
fn explain(file: &[u8], end: usize, words: &mut [u8]) -> usize
    ensures { result ≤ length words.new }
{
    if end == 0 {
        let mut out = Text::new(words);
        out.bytes(b"nobody is deadlocked\n");
        return out.end;
    }
    reasons(file, words)
}

fn main(rt: HostRuntime) {
    answer_input(
        &mut rt.stdin(),
        &mut rt.stdout(),
        &mut rt.stderr(),
        b"claims: ",
        &mut file_room(),
        &mut text_room(),
        &mut words_room(),
        report,
        explain,
    );
}
