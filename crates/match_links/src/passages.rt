//! What passed over links, for clauses alone: it takes no memory.

ghost use Rattle.std.specs.Prelude.{◌≡◌, List, [], ◌∷◌, ◌++◌};
ghost use Rattle.std.specs.Borrow.{ftrue};
ghost use Rattle.match_links.specs.Passages.{Passage, passages_code, sat, came, Told, Emptied, Logged};

use std::marker::Model;

/// All that passed, in order. It has no bytes, and clauses alone read it.
#[derive(Drop)]
pub(crate) struct Passages {
    ghost items: { List Passage } by { passages_code },
}

impl Model for Passages {
    ghost also_owns = { λ _. ftrue };
}

/// A call of a link that did what it was to do.
#[derive(Clone, Copy, Drop)]
pub(crate) enum Passing<'a> {
    Came { node: u8, seat: u8, bytes: &'a [u8] },
    Told { node: u8, seat: u8, line: &'a [u8] },
    Emptied { node: u8 },
    Logged { node: u8, text: &'a [u8] },
}

impl Passages {
    ghost use Rattle.match_links.specs.Passing.{passage_of};

    /// Nothing passed yet.
    pub(crate) fn new() -> Passages
        ensures { result.items ≡ [] }
    {
        Passages {}
    }

    /// What passed so far, and behind it this.
    fn and(&self, _what: &Passing<'_>) -> Passages
        ensures { result.items ≡ self.now.items ++ passage_of _what.now ∷ [] }
    {
        Passages {}
    }

    /// A connection of a seat was seated.
    pub(crate) fn sat(&mut self, node: u8, seat: u8)
        ensures { self.new.items ≡ self.old.items ++ sat node seat ∷ [] }
    {
        *self = self.and(&Passing::Came {
            node,
            seat,
            bytes: &[],
        });
    }

    /// A piece came of a seat; nothing where it has no bytes.
    pub(crate) fn came(&mut self, node: u8, seat: u8, bytes: &[u8])
        ensures { self.new.items ≡ self.old.items ++ came node seat bytes.now }
    {
        if !bytes.is_empty() {
            *self = self.and(&Passing::Came { node, seat, bytes });
        }
    }

    /// A seat was told a line.
    pub(crate) fn told(&mut self, node: u8, seat: u8, line: &[u8])
        ensures { self.new.items ≡ self.old.items ++ Told node seat line.now ∷ [] }
    {
        *self = self.and(&Passing::Told { node, seat, line });
    }

    /// The log of a node was emptied.
    pub(crate) fn emptied(&mut self, node: u8)
        ensures { self.new.items ≡ self.old.items ++ Emptied node ∷ [] }
    {
        *self = self.and(&Passing::Emptied { node });
    }

    /// The log of a node got text.
    pub(crate) fn logged(&mut self, node: u8, text: &[u8])
        ensures { self.new.items ≡ self.old.items ++ Logged node text.now ∷ [] }
    {
        *self = self.and(&Passing::Logged { node, text });
    }
}
