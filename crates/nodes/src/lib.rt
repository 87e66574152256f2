// Nodes, rounds, and sets of nodes. Nothing outside this crate shifts or masks.
#![tactic(auto, unfolding(crate::specs::Words::num, crate::specs::Words::to_come, crate::specs::Sets::union, crate::specs::Sets::meet, crate::specs::Sets::minus, crate::specs::Sets::inside))]

ghost use Rattle.std.specs.Prelude.{◌≡◌, ◌<◌, ◌≤◌, eqb, MatchOption, [], ◌∷◌};
ghost use Rattle.nodes.specs.Sets.{has, union, meet, minus, with, below, inside, members, size};
ghost use Rattle.nodes.specs.Words.{places, num, first_of, to_come};

// How many places a set has.
pub const PLACES: usize = 64;

// A node's number, and a round's number: neither passes for the other.
#[derive(Clone, Copy, Debug, PartialEq, Eq, PartialOrd, Ord)]
pub struct Node(pub usize);

#[derive(Clone, Copy, Debug, PartialEq, Eq, PartialOrd, Ord)]
pub struct Round(pub u64);

// A set of nodes: bit k is node k.
#[derive(Clone, Copy, Debug, PartialEq, Eq)]
pub struct Set(pub u64);

impl Set {
    pub fn empty() -> Set
        ensures { num result ≡ 0 }
    {
        Set(0)
    }

    pub fn is_empty(self) -> bool
        ensures { result ≡ eqb (num self) 0 }
    {
        self.0 == 0
    }

    // No set has a member past the places, so any number may be asked for.
    #[tactic(auto, using(crate::proofs::Inside::with_has))]
    pub fn has(self, k: Node) -> bool
        ensures { result ≡ has (num self) k.0 }
    {
        k.0 < PLACES && Set::empty().with(k).inside(self)
    }

    pub fn with(self, k: Node) -> Set
        requires { k.0 < places }
        ensures { num result ≡ with (num self) k.0 }
    {
        Set(self.0 | (1u64 << k.0))
    }

    pub fn union(self, t: Set) -> Set
        ensures { num result ≡ union (num self) (num t) }
    {
        Set(self.0 | t.0)
    }

    pub fn meet(self, t: Set) -> Set
        ensures { num result ≡ meet (num self) (num t) }
    {
        Set(self.0 & t.0)
    }

    pub fn minus(self, t: Set) -> Set
        ensures { num result ≡ minus (num self) (num t) }
    {
        Set(self.0 ^ (self.0 & t.0))
    }

    // All nodes below n.
    pub fn below(n: usize) -> Set
        requires { n ≤ places }
        ensures { num result ≡ below n }
    {
        if n == PLACES {
            return Set(u64::MAX);
        }
        Set((1u64 << n) - 1)
    }

    // Whether each member is in t: what the two share is then all there is of self.
    pub fn inside(self, t: Set) -> bool
        ensures { result ≡ inside (num self) (num t) }
    {
        (self.0 & t.0) == self.0
    }

    // Whether each member is below n. No set has a member past the places, so any n may be asked for.
    pub fn among(self, n: usize) -> bool
        ensures { result ≡ inside (num self) (below n) }
    {
        PLACES <= n || self.inside(Set::below(n))
    }

    // How many members there are. The bound spares callers the width of a set.
    pub fn size(self) -> u64
        ensures { (result ≡ size (num self)) × (result ≤ places) }
    {
        u64::count_ones(self.0) as u64
    }

    // The smallest member stands past the zeros at the low end of the word. A word of 0 has 64 of them, and no member.
    pub fn smallest(self) -> Option<Node>
        ensures { result ≡ first_of (members (num self)) }
    {
        if self.is_empty() {
            return None;
        }
        Some(Node(u64::trailing_zeros(self.0) as usize))
    }

    // The smallest member and the set of the others, if there is a member.
    fn split_first(self) -> Option<(Node, Set)>
        ensures { MatchOption result (members (num self) ≡ []) (λ p. members (num self) ≡ p.0.0 ∷ members (num p.1)) }
    {
        let k = self.smallest()?;
        Some((k, self.minus(Set::empty().with(k))))
    }

    // The members in turn, for a loop over them.
    pub fn members(self) -> InTurn
        ensures { to_come result ≡ members (num self) }
    {
        InTurn { left: self }
    }
}

// A walk over the members of a set, ascending: those that are left are still to come.
#[derive(Drop)]
pub struct InTurn {
    pub left: Set,
}

impl Iterator for InTurn {
    ghost use Rattle.std.specs.Iterator.{YieldsFirstBy, item_count};

    type Item = Node;

    ghost next_gives = { YieldsFirstBy (λ k. k.0) to_come };

    ghost remaining = { item_count to_come };

    fn next(&mut self) -> Option<Node> {
        let (k, others) = self.left.split_first()?;
        self.left = others;
        Some(k)
    }
}
