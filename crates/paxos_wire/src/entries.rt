ghost use Rattle.std.specs.Prelude.{◌≡◌, ◌<◌, ◌≤◌, ◌++◌, ◌↔◌, [], ◌∷◌, length, IsTrue};

use crate::ballot::Ballot;
use crate::entry::Entry;
use crate::limits::WINDOW;
use betting::Action;
use slot_log::Command;
use std::marker::Model;

/// The entries that a Promise tells of, at most 64, which take no memory of their own.
///
/// Contracts see them as the list of the entries.
#[derive(Clone, Copy, Debug, PartialEq, Eq)]
pub struct Entries {
    entries: [Entry; WINDOW],
    count: usize,
}

/// What stands in each place behind the last entry.
const BLANK: Entry = Entry {
    slot: 0,
    ballot: Ballot { round: 0, node: 0 },
    command: Command::Act {
        hand: 0,
        index: 0,
        action: Action::Fold,
    },
};

impl Model for Entries {
    ghost use Rattle.std.specs.Prelude.{List, take, ◌≤◌};
    ghost use Rattle.paxos_wire.specs.declared.entry.Entry.{Entry};

    ghost Value = { List Entry };

    ghost use Rattle.paxos_wire.specs.EntriesInside.{IsKept, inside_of, inside_of-view};

    ghost view = { λ e. take e.count e.entries };

    ghost invariant = { IsKept };

    ghost inverse = { inside_of };

    ghost inverse_ok = { inside_of-view };
}

impl Entries {
    /// No entry.
    pub fn new() -> Entries
        ensures { result ≡ [] }
    {
        Entries {
            entries: [BLANK; WINDOW],
            count: 0,
        }
    }

    /// How many there are.
    pub fn len(&self) -> usize
        ensures value { result ≡ length self.now }
        ensures most { result ≤ WINDOW }
    {
        self.as_slice().len()
    }

    /// Whether there is none.
    pub fn is_empty(&self) -> bool
        ensures { IsTrue result ↔ (self.now ≡ []) }
    {
        self.count == 0
    }

    /// The entries in order.
    pub fn as_slice(&self) -> &[Entry]
        ensures value { result.now ≡ self.now }
        ensures most { length self.now ≤ WINDOW }
    {
        &self.entries[..self.count]
    }

    /// Puts an entry behind the last one.
    pub fn push(&mut self, entry: Entry)
        requires { length self.old < WINDOW }
        ensures { self.new ≡ self.old ++ entry ∷ [] }
    {
        self.entries[self.count] = entry;
        self.count += 1;
    }
}

/// Entries that are borrowed, as a Promise tells of them.
///
/// Contracts see them as the list of the entries.
#[derive(Debug, Drop)]
pub struct ToldEntries<'a> {
    list: &'a Entries,
}

impl<'a> Model for ToldEntries<'a> {
    ghost use Rattle.std.specs.Prelude.{List};
    ghost use Rattle.paxos_wire.specs.declared.entry.Entry.{Entry};

    ghost Value = { List Entry };

    ghost view = { λ t. t.list.now };
}

impl<'a> ToldEntries<'a> {
    /// These entries.
    pub fn new(list: &'a Entries) -> ToldEntries<'a>
        ensures { result ≡ list.now }
    {
        ToldEntries { list }
    }

    /// How many there are.
    pub fn len(&self) -> usize
        ensures value { result ≡ length self.now }
        ensures most { result ≤ WINDOW }
    {
        self.list.len()
    }

    /// The entries.
    pub fn list(&self) -> &'a Entries
        ensures { result.now ≡ self.now }
    {
        self.list
    }

    /// The entries in order.
    pub fn as_slice(&self) -> &'a [Entry]
        ensures value { result.now ≡ self.now }
        ensures most { length self.now ≤ WINDOW }
    {
        self.list.as_slice()
    }
}
