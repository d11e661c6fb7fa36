//! What passed over wires, for clauses alone: it takes no memory. Who speaks over some lines of a wire puts down so what
//! passed over those.

ghost use Rattle.std.specs.Prelude.{◌≡◌, List, [], ◌∷◌, ◌++◌};
ghost use Rattle.std.specs.Borrow.{ftrue};
ghost use Rattle.node_wires.specs.Passages.{Passage, passages_code, Began, Came, Wrote, Gave, Logged, Closed, Saw, Waited, Called, halted_as};

use crate::halt::Halt;
use crate::line::Line;
use crate::way::Way;
use std::marker::Model;

/// All that passed, in order. It has no bytes, and clauses alone read it.
#[derive(Drop)]
pub struct Passages {
    ghost items: { List Passage } by { passages_code },
}

impl Model for Passages {
    ghost also_owns = { λ _. ftrue };
}

/// A call of a wire of which something is put down.
#[derive(Clone, Copy, Drop)]
pub(crate) enum Passing<'a> {
    Began { line: Line },
    Came { line: Line, bytes: &'a [u8] },
    Wrote { line: Line, bytes: &'a [u8] },
    Gave { place: u8, seat: u8 },
    Logged { text: &'a [u8] },
    Halted { line: Line, way: Way, halt: Halt },
    Closed { line: Line },
    Saw { moment: u64 },
    Waited { most: u64 },
    Called,
}

impl Passages {
    ghost use Rattle.node_wires.specs.Passing.{passage_of};

    /// Nothing passed yet.
    pub fn new() -> Passages
        ensures { result.items ≡ [] }
    {
        Passages {}
    }

    /// What passed so far, and behind it this.
    fn and(&self, _what: &Passing<'_>) -> Passages
        ensures { result.items ≡ self.now.items ++ passage_of _what.now ∷ [] }
    {
        Passages {}
    }

    /// A connection began.
    pub fn began(&mut self, line: Line)
        ensures { self.new.items ≡ self.old.items ++ Began line ∷ [] }
    {
        *self = self.and(&Passing::Began { line });
    }

    /// A piece came.
    pub fn came(&mut self, line: Line, bytes: &[u8])
        ensures { self.new.items ≡ self.old.items ++ Came line bytes.now ∷ [] }
    {
        *self = self.and(&Passing::Came { line, bytes });
    }

    /// A piece was written.
    pub fn wrote(&mut self, line: Line, bytes: &[u8])
        ensures { self.new.items ≡ self.old.items ++ Wrote line bytes.now ∷ [] }
    {
        *self = self.and(&Passing::Wrote { line, bytes });
    }

    /// The connection of a guest was given to a seat's line.
    pub fn gave(&mut self, place: u8, seat: u8)
        ensures { self.new.items ≡ self.old.items ++ Gave place seat ∷ [] }
    {
        *self = self.and(&Passing::Gave { place, seat });
    }

    /// The log got text.
    pub fn logged(&mut self, text: &[u8])
        ensures { self.new.items ≡ self.old.items ++ Logged text.now ∷ [] }
    {
        *self = self.and(&Passing::Logged { text });
    }

    /// A read or a write did nothing.
    pub fn halted(&mut self, line: Line, way: Way, halt: Halt)
        ensures { self.new.items ≡ self.old.items ++ halted_as way line halt ∷ [] }
    {
        *self = self.and(&Passing::Halted { line, way, halt });
    }

    /// This side closed the connection that a line has, if it has one.
    pub fn closed(&mut self, line: Line)
        ensures { self.new.items ≡ self.old.items ++ Closed line ∷ [] }
    {
        *self = self.and(&Passing::Closed { line });
    }

    /// This was the present moment.
    pub fn saw(&mut self, moment: u64)
        ensures { self.new.items ≡ self.old.items ++ Saw moment ∷ [] }
    {
        *self = self.and(&Passing::Saw { moment });
    }

    /// It was waited for so many microseconds at most.
    pub fn waited(&mut self, most: u64)
        ensures { self.new.items ≡ self.old.items ++ Waited most ∷ [] }
    {
        *self = self.and(&Passing::Waited { most });
    }

    /// The node was called.
    pub fn called(&mut self)
        ensures { self.new.items ≡ self.old.items ++ Called ∷ [] }
    {
        *self = self.and(&Passing::Called);
    }
}
