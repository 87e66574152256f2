// What a controller is told, and the record that it keeps.
ghost use Rattle.std.specs.Prelude.{◌≡◌, length};
ghost use Rattle.nodes.specs.Words.{num};
ghost use Rattle.waits.specs.Rows.{row_size};
ghost use Rattle.step.specs.Views.{seen_of};
ghost use Rattle.node.specs.Calls.{own};

use nodes::{Node, Set};
use records::Record;
use step::Own;
use waits::row_at;

#[derive(Clone, Copy)]
pub struct Told<'a> {
    pub nodes: usize,
    pub me: Node,
    pub row: &'a [u64],
    pub ins: Set,
    pub kept: Record,
}

impl<'a> Told<'a> {
    // What the controller sees of the graph.
    pub fn own(&self) -> Own
        requires { length self.now.row.now ≡ row_size }
        ensures { seen_of result ≡ own self.now.me.0 self.now.row.now (num self.now.ins) }
    {
        Own {
            me: self.me,
            row: row_at(self.row, Node(0)),
            ins: self.ins,
        }
    }
}
