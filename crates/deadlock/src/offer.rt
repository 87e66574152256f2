// A list that is offered as evidence, with the graph that it is offered for.
ghost use Rattle.std.specs.Prelude.{◌≡◌, false};
ghost use Rattle.deadlock.specs.Refusals.{strange_entry};

use waits::Graph;

// Its entries are nodes of the graph.
#[derive(Clone, Copy)]
pub struct Offer<'a> {
    pub graph: Graph<'a>,
    pub list: &'a [u8],
    ghost known: { strange_entry graph.nodes list.now ≡ false },
}
