// What is wrong with a line of a file of waits, the first thing that is.
#![tactic(auto)]

ghost use Rattle.std.specs.Prelude.{◌≡◌};
ghost use Rattle.format.specs.Cut.{comma, pieces};
ghost use Rattle.faults.specs.Faults.{line_fault, header_fault, field_flaw, fields_fault, row_fault, fault_of};

use crate::finding::{has, line_at, marked};
use crate::flaws::{number_flaw, set_flaw};
use fields::bare;

mod finding;
mod flaws;

pub use flaws::Flaw;

// The columns that are numbers, and then those that are sets.
const NUMBERS: usize = 3;

const COLUMNS: usize = 7;

#[derive(Clone, Copy, Debug, PartialEq, Eq)]
pub enum Fault {
    // Line 1: there is none, it has a byte-order mark in front, it is no header.
    EmptyFile,
    Mark,
    NoHeader,
    // Any line: it ends in LF alone, it has semicolons for commas.
    BareLf,
    Semicolons,
    // Another line: the first column that is wrong, a field too many, or else its node isn't the next.
    Column(usize, Flaw),
    MoreFields,
    NotNext,
}

// What any line may have wrong, or else its own fault.
#[tactic(auto, using(crate::proofs::Walking::line_lf, crate::proofs::Walking::line_plain, crate::proofs::Walking::line_commas, crate::proofs::Walking::line_semicolons))]
fn line_fault(line: &[u8], own: Fault) -> Fault
    ensures { result ≡ line_fault line.now own }
{
    if has(line, b'\n') {
        return Fault::BareLf;
    }
    if has(line, b';') && !has(line, b',') {
        return Fault::Semicolons;
    }
    own
}

// What is wrong with line 1.
fn header_fault(file: &[u8]) -> Fault
    ensures { result ≡ header_fault file.now }
{
    if file.is_empty() {
        return Fault::EmptyFile;
    }
    if marked(file) {
        return Fault::Mark;
    }
    line_fault(line_at(file, 0), Fault::NoHeader)
}

// What is wrong with the field of a column.
fn field_flaw(w: &[u8], column: usize) -> Result<(), Flaw>
    ensures { result ≡ field_flaw column w.now }
{
    let bared = bare(w);
    if column < NUMBERS {
        return number_flaw(bared);
    }
    set_flaw(bared)
}

// What is wrong with the fields of a line.
fn fields_fault(line: &[u8]) -> Fault
    ensures { result ≡ fields_fault 0 (pieces comma line.now) }
{
    let mut column: usize = 0;
    for field in line.split(|b| *b == b',') {
        if COLUMNS <= column {
            return Fault::MoreFields;
        }
        if let Err(f) = field_flaw(field, column) {
            return Fault::Column(column, f);
        }
        column += 1;
    }
    if column < COLUMNS {
        return Fault::Column(column, Flaw::Missing);
    }
    Fault::NotNext
}

// What is wrong with a line that is to be a row.
fn row_fault(line: &[u8]) -> Fault
    ensures { result ≡ row_fault line.now }
{
    let own = fields_fault(line);
    line_fault(line, own)
}

// What is wrong with a line of a file, the header being 1.
pub fn fault_of(file: &[u8], line: usize) -> Fault
    ensures { result ≡ fault_of file.now line }
{
    if line < 2 {
        return header_fault(file);
    }
    row_fault(line_at(file, line - 1))
}
