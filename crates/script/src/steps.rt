// Steps: three numbers each in a script, one each in a list of steps.
ghost use Rattle.std.specs.Prelude.{◌≡◌, true, ◌*◌, ◌≤◌, length};
ghost use Rattle.std.proofs.lemmas.List.Edits.{sets};
ghost use Rattle.lent.specs.Steps.{step_number};
ghost use Rattle.script.specs.Steps.{good_step, good_steps, steps_of};

// A step's kind is below KINDS, and its other two numbers are below PARTS.
pub const KINDS: u64 = 65536;

pub const PARTS: u64 = 16777216;

#[tactic(auto, unfolding(crate::specs::Steps::good_step))]
fn good_step(kind: u64, a: u64, b: u64) -> bool
    ensures { result ≡ good_step kind a b }
{
    kind < KINDS && a < PARTS && b < PARTS
}

#[tactic(auto, using(crate::proofs::Triples::good_bounds), unfolding(lent::specs::Steps::step_number))]
fn step(kind: u64, a: u64, b: u64) -> u64
    requires { good_step kind a b ≡ true }
    ensures { result ≡ step_number kind a b }
{
    kind * (PARTS * PARTS) + a * PARTS + b
}

// Whether each step of a list can be held by one number.
#[tactic(auto, using(crate::proofs::Triples::good_next, crate::proofs::Triples::good_not, crate::proofs::Triples::good_all))]
pub fn good_steps(list: &[u64]) -> bool
    ensures { result ≡ good_steps list.now }
{
    for k in 0..list.len() / 3 {
        let at = 3 * k;
        if !good_step(list[at], list[at + 1], list[at + 2]) {
            return false;
        }
    }
    true
}

// Writes each step of a list as one number.
pub fn code_steps(list: &[u64], steps: &mut [u64])
    requires { (good_steps list.now ≡ true) × (length list.now ≤ 3 * length steps.old) }
    ensures { steps.new ≡ sets steps.old 0 (steps_of list.now) }
{
    for k in 0..list.len() / 3 {
        let at = 3 * k;
        steps[k] = step(list[at], list[at + 1], list[at + 2]);
    }
}
