// What keeps bytes from being a script, the first thing that does: of the bytes, of how many numbers there are, of the steps.
ghost use Rattle.std.specs.Prelude.{◌≡◌};
ghost use Rattle.snags.specs.Snags.{step_snag, numbers_snag, snag_at, snag_of};

use script::{BYTES, KINDS, MOST, NUMBERS, PARTS, Stop, read, stop_of};

#[derive(Clone, Copy, Debug, PartialEq, Eq)]
pub enum Snag {
    // More bytes than a script may have.
    Long,
    // On this line a byte that is neither a digit nor a blank.
    Odd(usize),
    // On this line a number past 64 bits.
    Large(usize),
    // More numbers than any script has.
    Crowd,
    // So many numbers, where at least so many are wanted.
    Few(usize, usize),
    // A count above the most.
    ManyRows,
    WideRoom,
    ManySteps,
    // So many numbers, where so many are wanted.
    Uneven(usize, usize),
    // The step whose kind, a or b is too large.
    Kind(usize),
    First(usize),
    Second(usize),
}

// Where a text stops, there is a snag.
impl From<Stop> for Snag {
    ghost from_gives = { λ stop snag. snag ≡ snag_at stop };

    fn from(stop: Stop) -> Snag {
        match stop {
            Stop::Odd(line) => Snag::Odd(line),
            Stop::Large(line) => Snag::Large(line),
        }
    }
}

// The first step that is too large.
#[tactic(auto, using(crate::proofs::Steps::step_none, crate::proofs::Steps::step_kind, crate::proofs::Steps::step_first, crate::proofs::Steps::step_second, crate::proofs::Steps::step_next))]
fn step_snag(list: &[u64]) -> Result<(), Snag>
    ensures { result ≡ step_snag 0 list.now }
{
    for j in 0..list.len() / 3 {
        let at = 3 * j;
        if KINDS <= list[at] {
            return Err(Snag::Kind(j));
        }
        if PARTS <= list[at + 1] {
            return Err(Snag::First(j));
        }
        if PARTS <= list[at + 2] {
            return Err(Snag::Second(j));
        }
    }
    Ok(())
}

// What is wrong with the numbers: two in front of the rows, two behind them, and then the steps.
#[tactic(auto, using(crate::proofs::Found::crowded, crate::proofs::Found::too_few, crate::proofs::Found::many_rows, crate::proofs::Found::rows_missing, crate::proofs::Found::wide_room, crate::proofs::Found::many_steps, crate::proofs::Found::uneven, crate::proofs::Found::steps_left))]
fn numbers_snag(numbers: &[u64]) -> Result<(), Snag>
    ensures { result ≡ numbers_snag numbers.now }
{
    let there = numbers.len();
    if NUMBERS < there {
        return Err(Snag::Crowd);
    }
    if there < 4 {
        return Err(Snag::Few(there, 4));
    }
    let rows = numbers[1];
    if MOST < rows {
        return Err(Snag::ManyRows);
    }
    let front = rows as usize + 4;
    if there < front {
        return Err(Snag::Few(there, front));
    }
    if MOST < numbers[front - 2] {
        return Err(Snag::WideRoom);
    }
    let steps = numbers[front - 1];
    if MOST < steps {
        return Err(Snag::ManySteps);
    }
    let wanted = front + 3 * steps as usize;
    if there != wanted {
        return Err(Snag::Uneven(there, wanted));
    }
    step_snag(&numbers[front..])
}

// What is wrong with the bytes.
#[tactic(auto, using(crate::proofs::Found::too_long, crate::proofs::Found::stopped))]
pub fn snag_in(script: &[u8]) -> Result<(), Snag>
    ensures { result ≡ snag_of script.now }
{
    if BYTES < script.len() {
        return Err(Snag::Long);
    }
    stop_of(script)?;
    let mut numbers = [0u64; NUMBERS];
    let count = read(script, &mut numbers).ok_or(Snag::Crowd)?;
    numbers_snag(&numbers[..count])
}
