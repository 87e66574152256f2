// The calls of a bench: a step, and a list of steps.
ghost use Rattle.bench.specs.Bench.{bench};
ghost use Rattle.bench.specs.Steps.{step_on};
ghost use Rattle.bench.specs.Runs.{run_of};
ghost use Rattle.coldroom.specs.Left.{StepLeaves, RunLeaves};

use crate::results::{PLUS, answer, refusal};
use bench::{run, step};
use lent::Step;
use nodes::Round;

// One step by itself.
#[tactic(auto, using(crate::proofs::Small::step_answers))]
#[unsafe(no_mangle)]
pub extern "C" fn coldroom_step(
    nodes: usize,
    rows: &[u64],
    records: &mut [u64],
    messages: &mut [u64],
    sent: &mut u64,
    highest: &mut u64,
    kind: u64,
    a: u64,
    b: u64,
) -> u64
    ensures { StepLeaves (step_on nodes rows.now (bench records.old messages.old sent.old highest.old) (record { kind = kind; a = a; b = b })) (bench records.new messages.new sent.new highest.new) result }
{
    let s = Step { kind, a, b };
    let reply = step(
        nodes,
        rows,
        records,
        messages,
        *sent as usize,
        Round(*highest),
        s,
    );
    *sent = reply.sent as u64;
    *highest = reply.highest.0;
    answer(reply.answer)
}

// A list of steps, with an answer place for each.
#[unsafe(no_mangle)]
pub extern "C" fn coldroom_run(
    nodes: usize,
    rows: &[u64],
    records: &mut [u64],
    messages: &mut [u64],
    sent: &mut u64,
    highest: &mut u64,
    steps: &[u64],
    answers: &mut [u64],
) -> u64
    ensures { RunLeaves (run_of nodes rows.now (bench records.old messages.old sent.old highest.old) steps.now answers.old) (bench records.new messages.new sent.new highest.new) answers.new result }
{
    let ran = run(
        nodes,
        rows,
        records,
        messages,
        *sent as usize,
        Round(*highest),
        steps,
        answers,
    );
    *sent = ran.sent as u64;
    *highest = ran.highest.0;
    match ran.checked {
        Err(r) => refusal(r),
        Ok(()) => PLUS,
    }
}
