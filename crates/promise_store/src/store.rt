//! What an acceptor may never forget, on a disk.

ghost use Rattle.std.specs.Prelude.{◌≡◌, ◌≢◌, ◌⊎◌, ◌∷◌, ◌++◌, [], ◌+◌, ◌<◌, ◌≤◌, ℕ, List, Some, Ok, true, false, length, IsTrue, IsErrOf, IsOk, IfOk, IfErr, IfSome, OnOk};
ghost use Rattle.paxos_wire.specs.Fits.{IsBallot, IsSlot, IsInRange, IsCommandRun, IsEntry};
ghost use Rattle.protocol_model.specs.Stores as model;
ghost use Rattle.promise_store.specs.Disks.{Rose, TornFrom, Within};
ghost use Rattle.promise_store.specs.Stages.{stage_after, marked};
ghost use Rattle.promise_store.specs.Journals.{header, IsJournalOf};
ghost use Rattle.promise_store.specs.Records.{IsStorable};
ghost use Rattle.promise_store.specs.declared.records.Record.{Record};
ghost use Rattle.promise_store.specs.declared.records.Record.TheVariants.{Promised, Voted};
ghost use Rattle.promise_store.specs.declared.stage.Stage.{Stage};
ghost use Rattle.promise_store.specs.declared.stage.Stage.TheVariants.{New};

use crate::appending::{write_record, write_through};
use crate::disk::Disk;
use crate::fault::StoreFault;
use crate::held::Held;
use crate::laws::{journals_have_one_reading, what_is_kept_is_left};
use crate::reading::{HEADER, read_command_at, read_journal};
use crate::records::{MOST_RECORD, Record};
use crate::stage::Stage;
use crate::texts::put_record;
use arrayvec::ArrayVec;
use paxos_wire::{Ballot, Commands};
use slot_log::Command;
use std::alloc::{AllocError, Global};

/// The stable storage of an acceptor: the ballot that it promised, and what it accepted at each slot, in a journal on a
/// disk.
///
/// Contracts say what a store keeps as a store of the protocol's model (`Keeps`). Whatever moment the machine stops at,
/// also inside a call, what the disk then has opens to what was kept before that call or to that with what the call was
/// to store, and to nothing else; after Ok to the latter alone. A store whose disk failed (63) answers 64 until it is
/// opened again, which tells what was stored.
pub struct Store<D: Disk> {
    disk: D,
    /// Where the gate behind the last record stands.
    gate: usize,
    /// A call of the disk failed.
    closed: bool,
    held: Held,
}

/// By hand, so that letting one go is one call for whoever owns it (docs/ARCHITECTURE.md, Habits).
impl<D: Disk + Drop> Drop for Store<D> {
    fn drop(self) {
        let Store {
            disk: _,
            gate: _,
            closed: _,
            held: _,
        } = self;
    }
}

impl<D: Disk> Store<D> {
    ghost use Rattle.promise_store.specs.Holding.{stored, StandsFor};
    ghost use Rattle.promise_store.specs.Settled.{OnlyReads, IsSettled};
    ghost use Rattle.promise_store.specs.Keeping.{disk_of, is_closed, held_of, Keeps, ForKept, ForEither, IsOpened, Reopens};
    ghost use Rattle.promise_store.specs.Refusals.{Refuses};
    ghost use Rattle.promise_store.specs.Opening.{disk_behind, WhereNew, IsStoreRead, IsMarked};
    ghost use Rattle.promise_store.specs.Appended.{IsAsBefore, AppendedAt, Appended};
    ghost use Rattle.promise_store.specs.Asking.{IsAsking};
    ghost use Rattle.promise_store.specs.Shown.{vote_pair, vote_ballot, placed_ballot, pair_ballot};
    ghost use Rattle.promise_store.specs.Room.{room, promised_in, placed_in, AreWithinRanges, room_for, ShowSame};
    ghost use Rattle.protocol_model.specs.Backing.{IsWithinPromise};

    /// Makes an empty store, of this node of so many, over whatever the disk has.
    ///
    /// From Ok on a crash leaves this store. Refused is 63 where the disk failed; then the disk, which is handed back,
    /// may have anything in its first nine bytes.
    pub fn create(
        alloc: Global,
        mut disk: D,
        node: u8,
        nodes: u8,
    ) -> Result<Store<D>, (D, StoreFault)>
        ensures made { IfOk result (λ store. Keeps D.Disk (header node nodes) model.empty_store store) }
        // The disk has a journal of version 2 without records.
        ensures new { IfOk result (λ store. IsTrue D.is_honest → IsJournalOf New New (header node nodes) (D.seen (disk_of store)) []) }
        ensures failed { IfErr result (λ x. (x.1 ≡ StoreFault.Disk) × Rose (D.count disk) (D.count x.0)) }
        ensures torn { IfErr result (λ x. Within (TornFrom 0 9 (D.images disk)) (D.images x.0)) }
        ensures begun { D.begun (disk_behind result) ≡ D.begun disk }
        ensures counts { IfOk result (λ store. D.count (disk_of store) ≡ D.count disk) }
        ensures counts_err { IfErr result (λ x. D.count disk ≤ D.count x.0) }
    {
        let text = [b'H', b'D', b'J', b'2', node, nodes, 0, 0, 0];
        match write_through(&mut disk, 0, &text) {
            Ok(()) => Ok(Store {
                disk,
                gate: HEADER,
                closed: false,
                held: Held::new(alloc),
            }),
            Err(_) => Err((disk, StoreFault::Disk)),
        }
    }

    /// Opens the store of this node of so many that a disk has, also one that a crash left.
    ///
    /// It syncs, and then reads; it takes no memory but an index of the slots, 24 bytes each. Where the journal is of
    /// version 1 and wasn't opened for version 2 yet, it then appends the record that does this, which changes nothing
    /// that the journal stands for; else it writes nothing. With a fault the disk is handed back: 60 where the file is
    /// empty, 61 where it doesn't begin with the header of this node and count of nodes and a gate, 62 where an open gate
    /// stands before what is no record there, 63 where the disk failed.
    pub fn open(alloc: Global, disk: D, node: u8, nodes: u8) -> Result<Store<D>, (D, StoreFault)>
        ensures opened { IfOk result (λ store. IsOpened D.Disk (header node nodes) disk store) }
        ensures refused { IsTrue D.is_honest → IfErr result (λ x. Refuses (header node nodes) (D.seen disk) x.1) }
        // A disk that stands for one of two stores, as one that a crash left, is opened as the one that it has.
        ensures either { ForEither D.Disk (header node nodes) disk (λ old new. IfOk result (λ store. Keeps D.Disk (header node nodes) old store ⊎ Keeps D.Disk (header node nodes) new store)) }
        ensures sound { ForEither D.Disk (header node nodes) disk (λ old new. IfErr result (λ x. (x.1 ≡ StoreFault.Disk) ⊎ (x.1 ≡ StoreFault.OutOfMemory))) }
        // At each moment each image stands for what it stood for.
        ensures settles { IfOk result (λ store. Reopens D.Disk (header node nodes) disk (disk_of store)) }
        ensures settles_err { IfErr result (λ x. Reopens D.Disk (header node nodes) disk x.0) }
        // The journal has the record that opens it for version 2 behind the others where it was missing, and else it is
        // as it was.
        ensures marks { IsTrue D.is_honest → (first last : Stage) (records : List Record) → IsJournalOf first last (header node nodes) (D.seen disk) records
            → IfOk result (λ store. IsJournalOf first New (header node nodes) (D.seen (disk_of store)) (marked last records)) }
        // One that goes on with version 2 is only read.
        ensures quiet { WhereNew D.Disk (header node nodes) disk (IfOk result (λ store. OnlyReads D.Disk disk (disk_of store))) }
        ensures quiet_err { WhereNew D.Disk (header node nodes) disk (IfErr result (λ x. OnlyReads D.Disk disk x.0)) }
        // So is each that is refused, but where the disk failed.
        ensures unwritten { IfErr result (λ x. x.1 ≢ StoreFault.Disk → OnlyReads D.Disk disk x.0) }
        ensures failed { IfErr result (λ x. x.1 ≡ StoreFault.Disk → Rose (D.count disk) (D.count x.0)) }
    {
        match Store::read_from(alloc, disk, node, nodes) {
            Ok((store, stage)) => store.mark(stage),
            Err(failed) => Err(failed),
        }
    }

    /// Looks whether the store of this node of so many that a disk has opens, and hands the disk back.
    ///
    /// It syncs, and then reads: it writes nothing, and keeps nothing that it takes. It answers as `open` does, but for
    /// what that appends.
    pub fn look(alloc: Global, disk: D, node: u8, nodes: u8) -> Result<D, (D, StoreFault)>
        ensures stands { IsTrue D.is_honest → IfOk result (λ _. (held : model.Store) × StandsFor (header node nodes) (D.seen disk) held) }
        ensures refused { IsTrue D.is_honest → IfErr result (λ x. Refuses (header node nodes) (D.seen disk) x.1) }
        ensures reads { IfOk result (λ after. OnlyReads D.Disk disk after) }
        ensures reads_err { IfErr result (λ x. OnlyReads D.Disk disk x.0) }
        ensures failed { IfErr result (λ x. x.1 ≡ StoreFault.Disk → Rose (D.count disk) (D.count x.0)) }
    {
        match Store::read_from(alloc, disk, node, nodes) {
            Ok((store, _)) => Ok(store.close()),
            Err(refused) => Err(refused),
        }
    }

    /// Reads the store of this node of so many that a disk has, and the stage behind its records.
    fn read_from(
        alloc: Global,
        mut disk: D,
        node: u8,
        nodes: u8,
    ) -> Result<(Store<D>, Stage), (D, StoreFault)>
        ensures { IsStoreRead D.Disk (header node nodes) disk result }
    {
        journals_have_one_reading();
        match read_journal(alloc, &mut disk, node, nodes) {
            Ok((gate, held, stage)) => {
                let store = Store {
                    disk,
                    gate,
                    closed: false,
                    held,
                };
                Ok((store, stage))
            }
            Err(fault) => Err((disk, fault)),
        }
    }

    /// Has the store go on with version 2, by a record behind the others where they are of version 1. With a fault the
    /// disk is handed back.
    fn mark(mut self, stage: Stage) -> Result<Store<D>, (D, StoreFault)>
        ensures { IsMarked D.Disk stage self result }
    {
        what_is_kept_is_left::<D>();
        match stage {
            Stage::New => Ok(self),
            Stage::Old => match self.append(&Record::Opened) {
                Ok(()) => Ok(self),
                Err(fault) => Err((self.close(), fault)),
            },
        }
    }

    /// Hands the disk back. What the store kept stays on it.
    pub fn close(self) -> D
        ensures { result ≡ disk_of self }
    {
        let Store {
            disk,
            gate: _,
            closed: _,
            held: _,
        } = self;
        disk
    }

    /// Whether a call of the disk failed, so that each call of the store answers 64 until it is opened again.
    pub fn is_closed(&self) -> bool
        ensures { result ≡ is_closed self.now }
    {
        self.closed
    }

    /// How many calls of its disk have failed; it stays at its last value. The disk counts them.
    pub fn failures(&self) -> u64
        ensures { result ≡ D.count (disk_of self.now) }
    {
        self.disk.failures()
    }

    /// Its disk.
    pub fn disk(&self) -> &D
        ensures { result.now ≡ disk_of self.now }
    {
        &self.disk
    }

    /// What the store holds: the promised ballot, and where each slot's entry stands.
    pub fn held(&self) -> &Held
        ensures value { result.now ≡ held_of self.now }
        ensures promise { ForKept D.Disk self.now (λ head held. IsTrue D.is_honest → promised_in result.now ≡ held.promise) }
        ensures votes { ForKept D.Disk self.now (λ head held. IsTrue D.is_honest → (slot : ℕ) → placed_ballot (placed_in result.now slot) ≡ vote_ballot (held.votes slot)) }
        ensures within { ForKept D.Disk self.now (λ head held. IsWithinPromise held) }
        // On any disk, also one that isn't honest.
        ensures ranges { AreWithinRanges result.now }
    {
        &self.held
    }

    /// Makes room for so many entries more, so that accepting them takes no memory. An `Err` changes nothing. What is
    /// held makes it; said is that the store keeps what it kept.
    pub fn reserve(&mut self, additional: usize) -> Result<(), AllocError>
        ensures room { OnOk result (additional ≤ room (held_of self.new)) }
        ensures succeeds { additional ≤ room (held_of self.old) → IsOk result }
        ensures more { room (held_of self.old) ≤ room (held_of self.new) }
        ensures same { IsAsBefore D.Disk self.old self.new }
        ensures shows { ShowSame (held_of self.old) (held_of self.new) }
    {
        self.held.reserve(additional)
    }

    /// Stores that a ballot was promised. It takes no memory, and four calls of the disk.
    ///
    /// Refused are 64 at a closed store, and 63 where the disk failed.
    pub fn promise(&mut self, ballot: Ballot) -> Result<(), StoreFault>
        requires { IsBallot ballot }
        ensures appended { Appended D.Disk (Promised ballot) self.old self.new result }
        ensures room { room (held_of self.new) ≡ room (held_of self.old) }
        ensures memory { IsErrOf result StoreFault.OutOfMemory → ⊥ }
    {
        self.append(&Record::Promised(ballot))
    }

    /// Stores that a command was accepted at a slot in a ballot: a run of one.
    ///
    /// Refused are 64 at a closed store, 92 where there is no room for the slot's entry and no memory for it, and 63
    /// where the disk failed.
    pub fn accept(&mut self, ballot: Ballot, slot: u32, command: &Command) -> Result<(), StoreFault>
        requires ballot { IsBallot ballot }
        requires slot { IsSlot slot }
        requires command { IsInRange command.now }
        ensures appended { Appended D.Disk (Voted ballot slot (command.now ∷ [])) self.old self.new result }
        ensures room { room (held_of self.old) ≤ room (held_of self.new) + 1 }
        ensures full { IsErrOf result StoreFault.OutOfMemory → (room (held_of self.old) ≡ 0) × ShowSame (held_of self.old) (held_of self.new) }
    {
        self.accept_run(ballot, slot, &[*command])
    }

    /// The same where there is room for one entry: it takes no memory.
    pub fn accept_reserved(
        &mut self,
        ballot: Ballot,
        slot: u32,
        command: &Command,
    ) -> Result<(), StoreFault>
        requires ballot { IsBallot ballot }
        requires slot { IsSlot slot }
        requires command { IsInRange command.now }
        requires room { 1 ≤ room (held_of self.old) }
        ensures appended { Appended D.Disk (Voted ballot slot (command.now ∷ [])) self.old self.new result }
        ensures room { room (held_of self.old) ≤ room (held_of self.new) + 1 }
        ensures memory { IsErrOf result StoreFault.OutOfMemory → ⊥ }
    {
        self.accept_run_reserved(ballot, slot, &[*command])
    }

    /// Stores that commands were accepted in a ballot, one at each slot from this one on: all of them or, where it fails,
    /// all or none. It takes four calls of the disk, however many they are.
    ///
    /// Refused are 64 at a closed store, 92 where there is no room for the slots' entries and no memory for it, and 63
    /// where the disk failed.
    pub fn accept_run(
        &mut self,
        ballot: Ballot,
        slot: u32,
        commands: &[Command],
    ) -> Result<(), StoreFault>
        requires ballot { IsBallot ballot }
        requires run { IsCommandRun slot commands.now }
        ensures appended { Appended D.Disk (Voted ballot slot commands.now) self.old self.new result }
        ensures room { room (held_of self.old) ≤ room (held_of self.new) + length commands.now }
        ensures full { IsErrOf result StoreFault.OutOfMemory → (room (held_of self.old) < length commands.now) × ShowSame (held_of self.old) (held_of self.new) }
    {
        if self.closed {
            return Err(StoreFault::Closed);
        }
        self.reserve(commands.len())?;
        self.accept_run_reserved(ballot, slot, commands)
    }

    /// The same where there is room for as many entries: it takes no memory.
    pub fn accept_run_reserved(
        &mut self,
        ballot: Ballot,
        slot: u32,
        commands: &[Command],
    ) -> Result<(), StoreFault>
        requires ballot { IsBallot ballot }
        requires run { IsCommandRun slot commands.now }
        requires room { length commands.now ≤ room (held_of self.old) }
        ensures appended { Appended D.Disk (Voted ballot slot commands.now) self.old self.new result }
        ensures room { room (held_of self.old) ≤ room (held_of self.new) + length commands.now }
        ensures memory { IsErrOf result StoreFault.OutOfMemory → ⊥ }
    {
        self.append(&Record::Voted {
            ballot,
            slot,
            commands: Commands::new(commands),
        })
    }

    /// What was accepted at a slot, with its ballot, read from the disk; `None` where nothing was.
    ///
    /// Refused are 64 at a closed store, and 63 where the disk failed; 62 never where the disk is honest.
    pub fn entry(&mut self, slot: u32) -> Result<Option<(Ballot, Command)>, StoreFault>
        ensures found { ForKept D.Disk self.old (λ head held. IsTrue D.is_honest → IfOk result (λ found. found ≡ vote_pair (held.votes slot))) }
        ensures asking { IsAsking D.Disk self.old self.new result }
        // On any disk, also one that isn't honest: found is what the index shows.
        ensures shown { IfOk result (λ found. pair_ballot found ≡ placed_ballot (placed_in (held_of self.old) slot)) }
        ensures range { IfOk result (λ found. IfSome found (λ vote. IsEntry (record { slot = slot; ballot = vote.0; command = vote.1 }))) }
    {
        if self.closed {
            return Err(StoreFault::Closed);
        }
        let Some(placed) = self.held.find(slot) else {
            return Ok(None);
        };
        match read_command_at(&mut self.disk, placed) {
            Ok(command) => Ok(Some((placed.ballot, command))),
            Err(fault) => {
                self.closed = matches!(fault, StoreFault::Disk);
                Err(fault)
            }
        }
    }

    /// Stores a record, which leads from the stage behind those before it to the next one.
    fn append(&mut self, addition: &Record<'_>) -> Result<(), StoreFault>
        requires storable { IsStorable addition.now }
        requires room { room_for addition.now ≤ room (held_of self.old) }
        ensures appended { (last next : Stage) → stage_after last addition.now ≡ Some next → AppendedAt D.Disk last next addition.now self.old self.new result }
        ensures settled { (first last next : Stage) (head : List ℕ) (records : List Record) → stage_after last addition.now ≡ Some next
            → IsSettled D.Disk first last head records self.old.gate self.old.disk → OnOk result (IsSettled D.Disk first next head (records ++ addition.now ∷ []) self.new.gate self.new.disk) }
        ensures room { room (held_of self.old) ≤ room (held_of self.new) + room_for addition.now }
        ensures kept { room_for addition.now ≡ 0 → room (held_of self.new) ≡ room (held_of self.old) }
        ensures memory { IsErrOf result StoreFault.OutOfMemory → ⊥ }
    {
        if self.closed {
            return Err(StoreFault::Closed);
        }
        let mut bytes = ArrayVec::<u8, MOST_RECORD>::new();
        put_record(&mut bytes, addition);
        let text: &[u8] = &bytes;
        match write_record(&mut self.disk, self.gate, text) {
            Ok(()) => {
                self.held.note(self.gate, text.len() - 3, addition);
                self.gate = self.gate.saturating_add(text.len());
                Ok(())
            }
            Err(_) => {
                self.closed = true;
                Err(StoreFault::Disk)
            }
        }
    }
}
