// Reads a script from standard input, takes its steps, and writes what came of them to standard output; and to standard error why it is
// no script, if it is none.
#![tactic(auto)]

ghost use Rattle.std.specs.Prelude.{◌≤◌, length};

use snags::{snag_room, snags};
use streams::answer_input;
use transcript::{script_room, text_room, transcript};

fn explain(script: &[u8], _end: usize, words: &mut [u8]) -> usize
    ensures { result ≤ length words.new }
{
    snags(script, words)
}

fn main(rt: HostRuntime) {
    answer_input(
        &mut rt.stdin(),
        &mut rt.stdout(),
        &mut rt.stderr(),
        b"replay: ",
        &mut script_room(),
        &mut text_room(),
        &mut snag_room(),
        transcript,
        explain,
    );
}
