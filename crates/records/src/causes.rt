// Whether a node was called, or freed, and through whom.
ghost use Rattle.std.specs.Prelude.{◌≡◌, ◌<◌};
ghost use Rattle.nodes.specs.Words.{num, places};
ghost use Rattle.records.specs.Causes.{why_of, happened, by_itself, sender_of, strange_why, Fits};

use nodes::{Node, Set};

// As a number: 0 not at all, 1 by the node itself, k + 2 by node k.
#[derive(Clone, Copy, Debug, PartialEq, Eq)]
pub struct Cause(pub u64);

// The same by cases. Called by itself is an initiator; freed by itself is an active node.
#[derive(Clone, Copy, Debug, PartialEq, Eq)]
pub enum Why {
    Not,
    Itself,
    By(Node),
}

impl From<Cause> for Why {
    ghost from_gives = { λ cause why. why ≡ why_of cause.0 };

    fn from(cause: Cause) -> Why {
        match cause.0 {
            0 => Why::Not,
            1 => Why::Itself,
            k => Why::By(Node((k - 2) as usize)),
        }
    }
}

impl Cause {
    pub fn itself() -> Cause
        ensures { why_of result.0 ≡ Why.Itself }
    {
        Cause(1)
    }

    pub fn by(k: Node) -> Cause
        requires { k.0 < places }
        ensures { why_of result.0 ≡ Why.By k }
    {
        Cause(k.0 as u64 + 2)
    }

    pub fn happened(self) -> bool
        ensures { result ≡ happened (why_of self.0) }
    {
        !matches!(Why::from(self), Why::Not)
    }

    pub fn by_itself(self) -> bool
        ensures { result ≡ by_itself (why_of self.0) }
    {
        matches!(Why::from(self), Why::Itself)
    }

    // The node that it came from, as a set: nobody if it came from no other node.
    #[tactic(auto, using(nodes::proofs::Operations::with_empty))]
    pub fn sender(self) -> Set
        requires { Fits (why_of self.0) }
        ensures { num result ≡ sender_of (why_of self.0) }
    {
        match Why::from(self) {
            Why::Not | Why::Itself => Set::empty(),
            Why::By(k) => Set::empty().with(k),
        }
    }

    // Whether it names a node that isn't there.
    #[tactic(auto, unfolding(nodes::specs::Sets::no_node))]
    pub fn strange(self, nodes: usize) -> bool
        ensures { result ≡ strange_why nodes (why_of self.0) }
    {
        match Why::from(self) {
            Why::Not | Why::Itself => false,
            Why::By(k) => nodes <= k.0,
        }
    }
}
