// A script in, a text out: the script's steps are taken on a fresh bench, and the text says what came of them.
#![tactic(auto)]

ghost use Rattle.std.specs.Prelude.{◌≡◌, ◌+◌, ◌≤◌};
ghost use Rattle.text.specs.Text.{text, write, Wrote};
ghost use Rattle.script.specs.Script.{most, most_numbers, longest};
ghost use Rattle.transcript.specs.Transcript.{zeros, line_of, message_lines, told_of, script_at, played, transcript_of, longest_text};

use bench::run;
use lent::{message_of, record_numbers, records_room};
use nodes::Round;
use records::Message;
use script::{NUMBERS, STEPS, Shape, parse};
use text::Text;
use waits::Refusal;

// One byte more than a script may have, so that a longer one is seen to be too long.
const SCRIPT: usize = 1_048_577;

// No text is longer, whatever the script.
const TEXT: usize = 393_216;

// Room for a script.
pub fn script_room() -> [u8; SCRIPT]
    ensures { result ≡ zeros (longest + 1) }
{
    [0; SCRIPT]
}

// Room for any text.
pub fn text_room() -> [u8; TEXT]
    ensures { result ≡ zeros longest_text }
{
    [0; TEXT]
}

// The line of message k.
fn message(out: &mut Text, k: usize, m: Message)
    ensures { Wrote out.old out.new (line_of k m) }
{
    lines::message(
        out,
        k as u64,
        m.kind,
        m.from.0 as u64,
        m.to.0 as u64,
        m.round.0,
    );
}

// The lines of a list of messages, each with its place in the list.
pub fn messages(out: &mut Text, list: &[u64])
    ensures { Wrote out.old out.new (message_lines 0 list.now) }
{
    for (k, &x) in list.iter().enumerate() {
        message(out, k, message_of(x));
    }
}

// What is said of a list of steps: the answers to them and the messages that were sent, if the list was taken.
fn tell(out: &mut Text, checked: Result<(), Refusal>, answers: &[u64], sent: &[u64])
    ensures { Wrote out.old out.new (told_of checked answers.now sent.now) }
{
    match checked {
        Ok(()) => {
            lines::answers(out, answers);
            messages(out, sent);
        }
        Err(r) => lines::refused(out, r.reason.number(), 0),
    }
}

// Takes the steps of a script whose numbers and steps stand in lists, on a fresh bench, and says what came of them.
fn play(out: &mut Text, numbers: &[u64; NUMBERS], steps: &[u64; STEPS], shape: Shape)
    requires { (shape.rows + 2 ≤ most_numbers) × (shape.room ≤ most) × (shape.steps ≤ most) }
    ensures { Wrote out.old out.new (played (script_at numbers.now steps.now shape)) }
{
    let mut records = records_room();
    let mut messages = [0u64; STEPS];
    let mut answers = [0u64; STEPS];
    let nodes = shape.nodes as usize;
    let size = record_numbers(nodes);
    let end = shape.rows + 2;
    let count = shape.steps;
    let ran = run(
        nodes,
        &numbers[2..end],
        &mut records[..size],
        &mut messages[..shape.room],
        0,
        Round(0),
        &steps[..count],
        &mut answers,
    );
    tell(out, ran.checked, &answers[..count], &messages[..ran.sent]);
}

// What a script is answered with.
fn answer(out: &mut Text, script: &[u8])
    ensures { Wrote out.old out.new (transcript_of script.now) }
{
    let mut numbers = [0u64; NUMBERS];
    let mut steps = [0u64; STEPS];
    match parse(script, &mut numbers, &mut steps) {
        None => lines::no_script(out),
        Some(shape) => play(out, &numbers, &steps, shape),
    }
}

// Writes the text that answers a script, as far as there is room, and says where it ends.
pub fn transcript(script: &[u8], room: &mut [u8]) -> usize
    ensures { text room.new result ≡ write (text room.old 0) (transcript_of script.now) }
{
    let mut out = Text::new(room);
    answer(&mut out, script);
    out.end
}
