//! What a store holds, without the commands.

ghost use Rattle.std.specs.Prelude.{◌≡◌, ◌+◌, ◌^◌, ◌<◌, ◌≤◌, ℕ, length, OnOk, IsOk};
ghost use Rattle.std.specs.List.{flat_map};
ghost use Rattle.promise_store.specs.Index.{Rise, Rise-prop};
ghost use Rattle.promise_store.specs.Ranges.{IsBallotOrNone, AreInRange};
ghost use Rattle.promise_store.specs.Records.{IsRecord, payload};
ghost use Rattle.paxos_wire.specs.Fits.{IsBallot};
ghost use Rattle.paxos_wire.specs.Spelling.{command_text};
ghost use Rattle.paxos_wire.specs.declared.limits.TheConstants.{SLOTS};

use crate::index::{find, put_run};
use crate::placed::Placed;
use crate::records::Record;
use paxos_wire::Ballot;
use slot_log::Command;
use std::alloc::{AllocError, Global};

/// What a store holds: the promised ballot, and for each slot with an accepted entry its ballot and where it stands.
///
/// The commands stay on the disk: `Store::entry` reads them.
#[derive(Drop)]
pub struct Held {
    promised: Ballot,
    entries: Vec<Placed>,
    ghost rising: { Rise 0 entries.items } by { Rise-prop 0 entries.items },
    ghost promise_in_range: { IsBallotOrNone promised },
    ghost entries_in_range: { AreInRange entries.items },
}

impl Held {
    ghost use Rattle.promise_store.specs.Holding.{Holding, nothing_held, first_at, with_votes, with_record, greater, Indexes};
    ghost use Rattle.promise_store.specs.Room.{room, promised_in, placed_in, room_for, ShowSame};

    /// Nothing.
    pub(crate) fn new(alloc: Global) -> Held
        ensures { Indexes result nothing_held }
    {
        Held {
            promised: Ballot { round: 0, node: 0 },
            entries: Vec::new(alloc),
        }
    }

    /// The greatest ballot that was promised or accepted in; round 0 of node 0 where there is none.
    pub fn promised(&self) -> Ballot
        ensures { result ≡ promised_in self.now }
    {
        self.promised
    }

    /// Where the entry of a slot stands, and its ballot; `None` where nothing was accepted there. It keeps the index to this
    /// crate.
    pub fn find(&self, slot: u32) -> Option<Placed>
        ensures { result ≡ placed_in self.now slot }
    {
        find(&self.entries, slot)
    }

    /// Makes room for so many entries more. An `Err` changes nothing but the room. It keeps the index to this file, and
    /// what the index says stays.
    pub(crate) fn reserve(&mut self, additional: usize) -> Result<(), AllocError>
        ensures room { OnOk result (additional ≤ room self.new) }
        ensures more { room self.old ≤ room self.new }
        ensures succeeds { additional ≤ room self.old → IsOk result }
        ensures same { (held : Holding) → Indexes self.old held → Indexes self.new held }
        ensures shows { ShowSame self.old self.new }
    {
        self.entries.reserve(additional)
    }

    /// Takes the record behind a gate, whose payload has so many bytes, where there is room for its entries.
    pub(crate) fn note(&mut self, gate: usize, size: usize, addition: &Record<'_>)
        requires room { room_for addition.now ≤ room self.old }
        requires record { IsRecord addition.now }
        requires size { size ≡ length (payload addition.now) }
        ensures held { (held : Holding) → gate + 3 < 2 ^ 64 → Indexes self.old held → Indexes self.new (with_record gate held addition.now) }
        ensures room { room self.old ≤ room self.new + room_for addition.now }
        ensures kept { room_for addition.now ≡ 0 → room self.new ≡ room self.old }
    {
        match addition {
            Record::Promised(ballot) => self.raise(*ballot),
            Record::Opened => (),
            Record::VotedOne {
                ballot,
                slot,
                command,
            } => {
                let commands = [*command];
                self.note_run(gate, size, 10, *ballot, *slot, &commands);
            }
            Record::Voted {
                ballot,
                slot,
                commands,
            } => self.note_run(gate, size, 11, *ballot, *slot, commands.as_slice()),
        }
    }

    /// Takes the commands of a record behind a gate, the first of which begins so far inside its payload.
    fn note_run(
        &mut self,
        gate: usize,
        size: usize,
        inside: u16,
        ballot: Ballot,
        slot: u32,
        commands: &[Command],
    )
        requires room { length commands.now ≤ room self.old }
        requires ballot { IsBallot ballot }
        requires slots { slot + length commands.now ≤ SLOTS }
        requires inside { inside + length (flat_map command_text commands.now) ≤ size }
        requires size { size < 2 ^ 16 }
        ensures held { (held : Holding) → gate + 3 < 2 ^ 64 → Indexes self.old held
            → Indexes self.new (record { promise = greater held.promise ballot; entries = with_votes (first_at gate size inside ballot slot) commands.now held.entries }) }
        ensures room { room self.old ≤ room self.new + length commands.now }
    {
        let first = Placed {
            place: gate.saturating_add(3),
            ballot,
            slot,
            length: size as u16,
            inside,
        };
        put_run(&mut self.entries, first, commands);
        self.raise(ballot);
    }

    /// Takes the record behind a gate, with room made for its entries. An `Err` changes nothing.
    pub(crate) fn take_record(
        &mut self,
        gate: usize,
        size: usize,
        addition: &Record<'_>,
    ) -> Result<(), AllocError>
        requires record { IsRecord addition.now }
        requires size { size ≡ length (payload addition.now) }
        ensures held { (held : Holding) → gate + 3 < 2 ^ 64 → Indexes self.old held → OnOk result (Indexes self.new (with_record gate held addition.now)) }
    {
        self.reserve(addition.room())?;
        self.note(gate, size, addition);
        Ok(())
    }

    /// Raises the promise to a ballot that is greater.
    fn raise(&mut self, ballot: Ballot)
        requires { IsBallot ballot }
        ensures promise { promised_in self.new ≡ greater (promised_in self.old) ballot }
        ensures entries { (slot : ℕ) → placed_in self.new slot ≡ placed_in self.old slot }
        ensures room { room self.new ≡ room self.old }
    {
        if self.promised < ballot {
            self.promised = ballot;
        }
    }
}
