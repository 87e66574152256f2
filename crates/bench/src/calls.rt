// The two calls of a bench, for every input: a step by itself, and a list of steps.
ghost use Rattle.std.specs.Prelude.{◌≡◌, ◌≤◌, length, Ok};
ghost use Rattle.std.proofs.lemmas.List.Edits.{sets};
ghost use Rattle.bench.specs.Bench.{bench, after};
ghost use Rattle.bench.specs.AtWork.{state_at_work, GoodAtWork, SameLists};
ghost use Rattle.bench.specs.Steps.{step_on};
ghost use Rattle.bench.specs.Runs.{run_on, answers_on, run_of};
ghost use Rattle.bench.specs.Runs.{run as the_run};
ghost use Rattle.bench.specs.Replies.{refused, refused_list};

use crate::checks::strange_bench;
use crate::steps::{AtWork, Reply, refuse};
use lent::{Step, answer_number, step_of};
use nodes::{Node, Round};
use waits::{Graph, Reason, Refusal, refused};

// How many messages are sent now, the highest round opened, and whether the list was refused as a whole.
#[derive(Clone, Copy, Debug, PartialEq, Eq)]
pub struct Ran {
    pub sent: usize,
    pub highest: Round,
    pub checked: Result<(), Refusal>,
}

fn refuse_step(reason: Reason, sent: usize, highest: Round) -> Reply
    ensures { result ≡ refused reason sent highest }
{
    Reply {
        sent,
        highest,
        answer: refuse(reason),
    }
}

fn refuse_list(reason: Reason, sent: usize, highest: Round) -> Ran
    ensures { result ≡ refused_list reason sent highest }
{
    Ran {
        sent,
        highest,
        checked: refused(reason, Node(0)),
    }
}

// One step by itself.
#[tactic(auto, unfolding(crate::specs::Steps::step_on), using(crate::proofs::Made::good_shaped))]
pub fn step(
    nodes: usize,
    rows: &[u64],
    records: &mut [u64],
    messages: &mut [u64],
    sent: usize,
    highest: Round,
    s: Step,
) -> Reply
    ensures { after (bench records.new messages.new result.sent result.highest.0) result.answer ≡ step_on nodes rows.now (bench records.old messages.old sent highest.0) s }
{
    if strange_bench(nodes, rows, records, messages, sent, highest) {
        return refuse_step(Reason::StrangeState, sent, highest);
    }
    let graph = Graph::new(nodes, rows);
    let mut bench = AtWork {
        graph,
        records,
        messages,
        sent,
        highest,
    };
    let answer = bench.take_step(s);
    Reply {
        sent: bench.sent,
        highest: bench.highest,
        answer,
    }
}

// The steps of a list, one after the other. The state is good at the start, and steps keep it so.
fn take_steps(bench: &mut AtWork, steps: &[u64], answers: &mut [u64])
    requires { GoodAtWork bench.old × (length steps.now ≤ length answers.old) }
    ensures same_lists { SameLists bench.old bench.new }
    ensures taken { the_run (state_at_work bench.new) answers.new (Ok tt) ≡ the_run (run_on bench.old.graph.nodes bench.old.graph.rows.now (state_at_work bench.old) steps.now) (sets answers.old 0 (answers_on bench.old.graph.nodes bench.old.graph.rows.now (state_at_work bench.old) steps.now)) (Ok tt) }
{
    for (j, &x) in steps.iter().enumerate() {
        let answer = bench.take_step(step_of(x));
        answers[j] = answer_number(bench.sent, answer);
    }
}

// A list of steps, with an answer place for each.
#[tactic(auto, unfolding(crate::specs::Runs::run_of), using(crate::proofs::Made::good_shaped))]
pub fn run(
    nodes: usize,
    rows: &[u64],
    records: &mut [u64],
    messages: &mut [u64],
    sent: usize,
    highest: Round,
    steps: &[u64],
    answers: &mut [u64],
) -> Ran
    ensures { the_run (bench records.new messages.new result.sent result.highest.0) answers.new result.checked ≡ run_of nodes rows.now (bench records.old messages.old sent highest.0) steps.now answers.old }
{
    if strange_bench(nodes, rows, records, messages, sent, highest) {
        return refuse_list(Reason::StrangeState, sent, highest);
    }
    if answers.len() < steps.len() {
        return refuse_list(Reason::ShortRoom, sent, highest);
    }
    let graph = Graph::new(nodes, rows);
    let mut bench = AtWork {
        graph,
        records,
        messages,
        sent,
        highest,
    };
    take_steps(&mut bench, steps, answers);
    Ran {
        sent: bench.sent,
        highest: bench.highest,
        checked: Ok(()),
    }
}
