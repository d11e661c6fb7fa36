//! The records of a journal.

ghost use Rattle.std.specs.Prelude.{◌≡◌};
ghost use Rattle.promise_store.specs.Room.{room_for};

use paxos_wire::limits::{BALLOT_BYTES, MOST_COMMAND, SLOT_BYTES, WINDOW};
use paxos_wire::{Ballot, Commands};
use slot_log::Command;

/// What an append stores, and what an opening reads. A run's commands are borrowed from whoever has them.
#[derive(Drop)]
pub enum Record<'a> {
    /// The ballot was promised.
    Promised(Ballot),
    /// The command was accepted: of version 1, so it is read and never written.
    VotedOne {
        ballot: Ballot,
        /// Counted from 0.
        slot: u32,
        command: Command,
    },
    /// From here on the journal is of version 2.
    Opened,
    /// The commands were accepted, one at each slot from this one on.
    Voted {
        ballot: Ballot,
        /// That of the first command, counted from 0.
        slot: u32,
        commands: Commands<'a>,
    },
}

impl Record<'_> {
    /// How many entries it may take room for.
    pub fn room(&self) -> usize
        ensures { result ≡ room_for self.now }
    {
        match self {
            Record::Promised(_) | Record::Opened => 0,
            Record::VotedOne { .. } => 1,
            Record::Voted { commands, .. } => commands.len(),
        }
    }
}

/// The most bytes of a record's payload: those of the accept of 64 deals for ten players, behind a byte for the kind, the
/// ballot, the slot and a byte that counts the commands.
pub const MOST_PAYLOAD: usize = 1 + BALLOT_BYTES + SLOT_BYTES + 1 + WINDOW * MOST_COMMAND;

/// The most bytes of a record, two for its length, and the gate behind it.
pub const MOST_RECORD: usize = 2 + MOST_PAYLOAD + 1;

/// The most bytes of a record with the gates in front of it and behind it.
pub const MOST_GATED: usize = 1 + MOST_RECORD;
