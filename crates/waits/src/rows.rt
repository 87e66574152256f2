// What rows mean: OUT, IN and the condition of a node.
ghost use Rattle.std.specs.Prelude.{◌≡◌, ◌+◌, ◌*◌, ◌≤◌, length};
ghost use Rattle.std.proofs.lemmas.List.Edits.{sets};
ghost use Rattle.lemmas.specs.Lists.{any_of};
ghost use Rattle.nodes.specs.Words.{num};
ghost use Rattle.waits.specs.Rows.{row_size, row_at, row_numbers, sets_of, later_of, out_of, lies_in, holds_of};

use nodes::{Node, Set};

// How many numbers a row has.
pub const ROW: usize = 6;

// What one node waits for.
#[derive(Clone, Copy, Debug, PartialEq, Eq)]
pub struct Row {
    pub kind: u64,
    pub threshold: u64,
    pub first: Set,
    pub second: Set,
    pub third: Set,
    pub fourth: Set,
}

// The row of node k.
#[tactic(auto, unfolding(crate::specs::Rows::row_at))]
pub fn row_at(rows: &[u64], k: Node) -> Row
    requires { k.0 * row_size + row_size ≤ length rows.now }
    ensures { result ≡ row_at rows.now k.0 }
{
    let at = k.0 * ROW;
    Row {
        kind: rows[at],
        threshold: rows[at + 1],
        first: Set(rows[at + 2]),
        second: Set(rows[at + 3]),
        third: Set(rows[at + 4]),
        fourth: Set(rows[at + 5]),
    }
}

// Stores the row of node k.
#[tactic(auto, unfolding(crate::specs::Rows::row_numbers, nodes::specs::Words::num))]
pub fn put_row(rows: &mut [u64], k: Node, row: Row)
    requires { k.0 * row_size + row_size ≤ length rows.old }
    ensures { rows.new ≡ sets rows.old (k.0 * row_size) (row_numbers row) }
{
    let at = k.0 * ROW;
    rows[at] = row.kind;
    rows[at + 1] = row.threshold;
    rows[at + 2] = row.first.0;
    rows[at + 3] = row.second.0;
    rows[at + 4] = row.third.0;
    rows[at + 5] = row.fourth.0;
}

// The union of all sets but the first.
#[tactic(auto, unfolding(crate::specs::Rows::later_of))]
pub fn later(row: Row) -> Set
    ensures { num result ≡ later_of row }
{
    row.second.union(row.third.union(row.fourth))
}

// OUT: the union of all sets.
#[tactic(auto, unfolding(crate::specs::Rows::out_of))]
pub fn out_of(row: Row) -> Set
    ensures { num result ≡ out_of row }
{
    row.first.union(later(row))
}

// Whether q has a member and all its members are in g.
#[tactic(auto, unfolding(crate::specs::Rows::lies_in))]
pub fn lies_in(q: Set, g: Set) -> bool
    ensures { result ≡ lies_in (num q) (num g) }
{
    !q.is_empty() && q.inside(g)
}

// Whether all of at least one nonempty set have granted.
fn some_lies_in(row: Row, g: Set) -> bool
    ensures { result ≡ any_of (λ q. lies_in q (num g)) (sets_of row) }
{
    lies_in(row.first, g)
        || lies_in(row.second, g)
        || lies_in(row.third, g)
        || lies_in(row.fourth, g)
}

// Whether the condition holds when the nodes of g have granted.
#[tactic(auto, unfolding(crate::specs::Rows::holds_of))]
pub fn holds(row: Row, g: Set) -> bool
    ensures { result ≡ holds_of row (num g) }
{
    match row.kind {
        0 => true,
        1 => row.threshold <= row.first.meet(g).size(),
        2 => some_lies_in(row, g),
        _ => false,
    }
}
