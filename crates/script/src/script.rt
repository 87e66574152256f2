// A script: the shape of its numbers, and the whole way from bytes to a script.
ghost use Rattle.std.specs.Prelude.{◌≡◌, ◌≤◌, length};
ghost use Rattle.script.specs.Script.{most, most_numbers, script_of, shape_of, CodeSays, ParseSays};

use crate::numbers::read;
use crate::steps::{code_steps, good_steps};

// At most this many row numbers, this much room and this many steps.
pub const MOST: u64 = 8192;

// The places that the two lent lists must have.
pub const STEPS: usize = 8192;

pub const NUMBERS: usize = 32772;

// At most this many bytes.
pub const BYTES: usize = 1048576;

// The node count, how many row numbers there are, the room, and how many steps there are.
#[derive(Clone, Copy, Debug, PartialEq, Eq)]
pub struct Shape {
    pub nodes: u64,
    pub rows: usize,
    pub room: usize,
    pub steps: usize,
}

// The shape of a script's numbers: two in front of the rows, two behind them, and then the steps.
fn shaped(numbers: &[u64]) -> Option<Shape>
    ensures { result ≡ shape_of (script_of numbers.now) }
{
    if numbers.len() < 4 || MOST < numbers[1] {
        return None;
    }
    let rows = numbers[1] as usize;
    let from = rows + 4;
    if numbers.len() < from {
        return None;
    }
    let room = numbers[from - 2];
    let steps = numbers[from - 1];
    if MOST < room || MOST < steps {
        return None;
    }
    if numbers.len() - from != 3 * steps as usize || !good_steps(&numbers[from..]) {
        return None;
    }
    Some(Shape {
        nodes: numbers[0],
        rows,
        room: room as usize,
        steps: steps as usize,
    })
}

// The shape, with the steps written into a lent list.
fn code(numbers: &[u64], steps: &mut [u64]) -> Option<Shape>
    requires { most ≤ length steps.old }
    ensures { CodeSays numbers.now steps.old steps.new result }
{
    let shape = shaped(numbers)?;
    code_steps(&numbers[shape.rows + 4..], steps);
    Some(shape)
}

// Reads a script: its numbers go to one lent list, its steps to another.
pub fn parse(script: &[u8], numbers: &mut [u64], steps: &mut [u64]) -> Option<Shape>
    requires { (most_numbers ≤ length numbers.old) × (most ≤ length steps.old) }
    ensures { ParseSays script.now numbers.old steps.old numbers.new steps.new result }
{
    if BYTES < script.len() {
        return None;
    }
    let count = read(script, numbers)?;
    code(&numbers[..count], steps)
}
