// A file of waits, from its bytes to the graph that it says, or to what is wrong with it.
ghost use Rattle.std.specs.Prelude.{◌≡◌, ◌*◌};
ghost use Rattle.std.proofs.lemmas.List.Edits.{sets};
ghost use Rattle.waits.specs.Rows.{row_size, row_numbers};
ghost use Rattle.format.specs.Cut.{lines_of};
ghost use Rattle.format.specs.Files.{rows_from, meant_by, read_of};
ghost use Rattle.reader.specs.declared.files.Wrong.TheVariants.{Refused};
ghost use Rattle.reader.specs.Answers.{LinesSay, graph_judged, file_said, told_as};

use crate::lines::{header, row};
use fields::first_line;
use nodes::{Node, PLACES};
use waits::{ROW, Reason, Refusal, Row, check, put_row};

// The numbers of as many rows as a graph can have.
pub const NUMBERS: usize = 384;

// Why a file says no graph.
#[derive(Clone, Copy, Debug, PartialEq, Eq)]
pub enum Wrong {
    // The first line that breaks a rule, the header being 1.
    Line(usize),
    // The graph's number, with its row.
    Refused(Refusal),
}

impl From<Refusal> for Wrong {
    ghost from_gives = { λ r w. w ≡ Refused r };

    fn from(r: Refusal) -> Wrong {
        Wrong::Refused(r)
    }
}

// What a file's wrong is known by outside: its number, and its line or row.
#[derive(Clone, Copy, Debug, PartialEq, Eq)]
pub struct Told {
    pub number: u64,
    pub place: u64,
}

// The graph that a file says: how many nodes there are, and all their numbers, with zeros behind them.
#[derive(Clone, Copy, Debug, PartialEq, Eq)]
pub struct File {
    pub nodes: usize,
    pub rows: [u64; NUMBERS],
}

// Stores the row of node k, if a graph can have so many. The lines behind it are still to be judged.
#[tactic(auto, using(crate::proofs::Storing::kept_out))]
fn keep(rows: &mut [u64; NUMBERS], k: usize, row: Row)
    ensures { rows.new ≡ sets rows.old (k * row_size) (row_numbers row) }
{
    if k < PLACES {
        put_row(rows, Node(k), row);
    }
}

// Reads the lines of a text as rows, and stores them. Gives how many there are, or the line that breaks a rule.
#[tactic(auto, using(crate::proofs::Storing::storing_start, crate::proofs::Storing::storing_broken, crate::proofs::Storing::storing_next, crate::proofs::Storing::storing_all))]
fn read_rows(text: &[u8], rows: &mut [u64; NUMBERS]) -> Result<usize, usize>
    ensures { LinesSay (rows_from 0 (lines_of text.now)) rows.old rows.new result }
{
    let mut rest = text;
    let mut k: usize = 0;
    while !rest.is_empty() {
        let (line, behind) = first_line(rest);
        let r = row(line, k).ok_or(k + 2)?;
        keep(rows, k, r);
        k += 1;
        rest = behind;
    }
    Ok(k)
}

// Reads all lines of a file. An empty file is read as one empty line, which is no header.
#[tactic(auto, using(crate::proofs::Storing::no_header, crate::proofs::Storing::under_header_lem))]
fn read_lines(file: &[u8], rows: &mut [u64; NUMBERS]) -> Result<usize, usize>
    ensures { LinesSay (meant_by file.now) rows.old rows.new result }
{
    let (line, behind) = first_line(file);
    if !header(line) {
        return Err(1);
    }
    read_rows(behind, rows)
}

// Judges the graph of so many rows, of which those that a graph can have are stored.
fn judge(nodes: usize, rows: [u64; NUMBERS]) -> Result<File, Wrong>
    ensures { result ≡ graph_judged nodes rows }
{
    if PLACES < nodes {
        return Err(Wrong::Refused(Refusal {
            reason: Reason::WrongCount,
            row: Node(0),
        }));
    }
    check(nodes, &rows[..nodes * ROW])?;
    Ok(File { nodes, rows })
}

// Reads a file. Every line is judged before any number of the graph is given.
pub fn read_file(file: &[u8]) -> Result<File, Wrong>
    ensures { result ≡ file_said (read_of file.now) }
{
    let mut rows = [0u64; NUMBERS];
    match read_lines(file, &mut rows) {
        Ok(nodes) => judge(nodes, rows),
        Err(line) => Err(Wrong::Line(line)),
    }
}

// The number of any outcome of a file; a file that says a graph has none.
pub fn told_as(answer: Result<(), Wrong>) -> Told
    ensures { result ≡ told_as answer }
{
    match answer {
        Ok(()) => Told {
            number: 0,
            place: 0,
        },
        Err(Wrong::Line(line)) => Told {
            number: 20,
            place: line as u64,
        },
        Err(Wrong::Refused(r)) => Told {
            number: r.reason.number(),
            place: r.row.0 as u64,
        },
    }
}
