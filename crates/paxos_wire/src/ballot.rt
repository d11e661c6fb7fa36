ghost use Rattle.std.specs.Prelude.{◌≡◌, Some};
ghost use Rattle.paxos_wire.specs.Lines.{ballot_line};
ghost use Rattle.paxos_wire.specs.Order.{is_below, is_same_ballot};

use std::fmt;

/// A ballot of 'Paxos Made Simple': ordered by its round, then by the node that began it.
///
/// It prints as `(3, 1)`, the round and the node.
#[derive(Clone, Copy, Debug, PartialEq, Eq, PartialOrd, Ord)]
pub struct Ballot {
    /// From 1 on.
    pub round: u32,
    /// The node that began it, counted from 0.
    pub node: u8,
}

impl Ballot {
    /// Whether it is below another one: of a lower round, or of the same round and begun by a lower node.
    pub fn is_below(self, other: Ballot) -> bool
        ensures { result ≡ is_below self other }
    {
        self.round < other.round || self.round == other.round && self.node < other.node
    }

    /// Whether it is of the same round and node.
    pub fn is_same(self, other: Ballot) -> bool
        ensures { result ≡ is_same_ballot self other }
    {
        self.round == other.round && self.node == other.node
    }
}

impl fmt::Display for Ballot {
    ghost output = { λ b. Some (ballot_line b) };

    fn fmt<W: fmt::Write>(&self, f: &mut fmt::Formatter<W>) -> fmt::Result {
        write!(f, "({}, {})", self.round, self.node)
    }
}
