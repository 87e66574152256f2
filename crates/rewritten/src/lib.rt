// A file of waits in, its graph's file out as the writer writes it, or the refusal.
#![tactic(auto)]

ghost use Rattle.std.specs.Prelude.{◌≡◌, Ok};
ghost use Rattle.waits.specs.Numbers.{check_of};
ghost use Rattle.text.specs.Text.{text, write};
ghost use Rattle.format.specs.Written.{file_of};
ghost use Rattle.rewritten.specs.Rewritten.{rewritten_of};

use reader::read_file;
use report::{BYTES, report};
use text::Text;
use waits::ROW;
use writer::{file_room, write_file};

// The file of an accepted graph. The writer refuses neither the graph nor the room that it is lent.
fn graph(room: &mut [u8], nodes: usize, rows: &[u64]) -> usize
    requires { check_of nodes rows.now ≡ Ok tt }
    ensures { text room.new result ≡ write (text room.old 0) (file_of nodes rows.now) }
{
    let mut file = file_room();
    let Ok(end) = write_file(nodes, rows, &mut file) else {
        return 0;
    };
    let mut out = Text::new(room);
    out.bytes(&file[..end]);
    out.end
}

// Writes the file that a file's graph has, or the line that refuses it, as far as there is room, and says where that ends.
pub fn rewritten(file: &[u8], room: &mut [u8]) -> usize
    ensures { text room.new result ≡ write (text room.old 0) (rewritten_of file.now) }
{
    if BYTES < file.len() {
        return report(file, room);
    }
    match read_file(file) {
        Ok(said) => graph(room, said.nodes, &said.rows[..said.nodes * ROW]),
        Err(_) => report(file, room),
    }
}
