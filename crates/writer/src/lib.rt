// A graph's file, written into lent bytes.
#![tactic(auto)]

ghost use Rattle.std.specs.Prelude.{◌≡◌, ◌∷◌, replicate};
ghost use Rattle.nodes.specs.Words.{num};
ghost use Rattle.text.specs.Words.{decimal};
ghost use Rattle.text.specs.Text.{text, write, Wrote};
ghost use Rattle.format.specs.Cut.{comma, cr, lf};
ghost use Rattle.format.specs.Written.{set_text, row_text, file_of};
ghost use Rattle.writer.specs.Answer.{WrittenSays, longest_file};

use nodes::{Node, Set};
use text::Text;
use waits::{Graph, Reason, Refusal, Row, refused_if};

// No file of an accepted graph is longer: 41 bytes for the header, 14 for each of at most 64 rows, 12 for each of at most 512 edges.
const LONGEST: usize = 7081;

// Room for any file of an accepted graph.
pub fn file_room() -> [u8; LONGEST]
    ensures { result ≡ replicate longest_file 0 }
{
    [0; LONGEST]
}

// A number behind a mark.
fn after(out: &mut Text, mark: u8, n: u64)
    ensures { Wrote out.old out.new (mark ∷ decimal n) }
{
    out.put(mark);
    out.number(n);
}

// A set behind a comma: nothing if it has no member, else the first and then the others, each behind a space.
fn set_field(out: &mut Text, s: Set)
    ensures { Wrote out.old out.new (comma ∷ set_text (num s)) }
{
    let mut members = s.members();
    let Some(first) = members.next() else {
        return out.put(b',');
    };
    after(out, b',', first.0 as u64);
    for k in members {
        after(out, b' ', k.0 as u64);
    }
}

// The row of node k behind the end of the line before it, and without its own end.
fn row_text(out: &mut Text, k: usize, row: Row)
    ensures { Wrote out.old out.new (cr ∷ lf ∷ row_text k row) }
{
    out.bytes(b"\r\n");
    out.number(k as u64);
    after(out, b',', row.kind);
    after(out, b',', row.threshold);
    set_field(out, row.first);
    set_field(out, row.second);
    set_field(out, row.third);
    set_field(out, row.fourth);
}

// The header and then each row; then the last end.
fn file_text(file: &mut Text, graph: Graph)
    ensures { Wrote file.old file.new (file_of graph.entry.nodes graph.entry.rows.now) }
{
    file.bytes(b"node,kind,threshold,set1,set2,set3,set4");
    for k in 0..graph.nodes {
        row_text(file, k, graph.row(Node(k)));
    }
    file.bytes(b"\r\n");
}

// Makes the file of a graph, and says how many bytes it has.
fn make_file(file: &mut [u8], graph: Graph) -> usize
    ensures { text file.new result ≡ write (text file.old 0) (file_of graph.entry.nodes graph.entry.rows.now) }
{
    let mut text = Text::new(file);
    file_text(&mut text, graph);
    text.end
}

// Writes the file of a graph, and says how many bytes it has. It is made in a place of its own first: its length is known before
// anything is written, so that a refusal, by the graph's number or by 15, leaves the lent bytes as they were.
pub fn write_file(nodes: usize, rows: &[u64], room: &mut [u8]) -> Result<usize, Refusal>
    ensures { WrittenSays nodes rows.now room.old room.new result }
{
    let graph = Graph::checked(nodes, rows)?;
    let mut file = file_room();
    let end = make_file(&mut file, graph);
    refused_if(room.len() < end, Reason::ShortRoom, Node(0))?;
    room[..end].copy_from_slice(&file[..end]);
    Ok(end)
}
