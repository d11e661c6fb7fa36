ghost use Rattle.std.specs.Prelude.{◌≡◌, ◌⊎◌, ◌+◌, ◌<◌, ◌≤◌, ℕ, length, List, IsTrue, IsOk, OnOk, IfOk, IsErrOf};
ghost use Rattle.paxos_wire.specs.Fits.{IsBallot, IsSlot, IsInRange, IsCommandRun};
ghost use Rattle.protocol_model.specs.Ballots.{no_ballot};
ghost use Rattle.protocol_model.specs.Stores as model;
ghost use Rattle.promise_store.specs.Room.{promised_in, ShowSame};
ghost use Rattle.acceptor.specs.Answers.{answer_to_prepare, refusal_of_prepare, prepared, AnswersPrepare, answer_to_accept, refusal_of_accept, accepted, AnswersAccept, answer_to_run, refusal_of_run, accepted_run, AnswersRun};

use crate::answers::{AcceptAnswer, PrepareAnswer, RunAnswer};
use crate::telling::{beginning_of, commands_from, entries_from, is_voted, stored_in};
use paxos_wire::{Ballot, CommandList, Commands};
use promise_store::laws::{records_are_moves, what_is_kept_is_left};
use promise_store::{Disk, Store, StoreFault};
use slot_log::Command;
use std::alloc::AllocError;

/// The acceptor of one node: what it promised and accepted stands in its store.
///
/// Contracts see it as its store. Each call reads what it needs before its one append, if it makes one; after a fault
/// but want of memory the store is to be opened again.
#[derive(Drop)]
pub struct Acceptor<D: Disk> {
    store: Store<D>,
}

impl<D: Disk> Acceptor<D> {
    ghost use Rattle.promise_store.specs.Keeping.{disk_of, held_of, Keeps};
    ghost use Rattle.promise_store.specs.Appended.{IsAsBefore};
    ghost use Rattle.acceptor.specs.Stored.{store_of, room_in};
    ghost use Rattle.acceptor.specs.Taken.{Taken, NeedsStore, OnlyReadsWhereVoted};

    /// The acceptor with this store, which was created or opened.
    pub fn new(store: Store<D>) -> Acceptor<D>
        ensures { store_of result ≡ store }
    {
        Acceptor { store }
    }

    /// Its store.
    pub fn store(&self) -> &Store<D>
        ensures { result.now ≡ store_of self.now }
    {
        &self.store
    }

    /// The greatest ballot that it promised or accepted in; round 0 of node 0 where there is none.
    pub fn promised(&self) -> Ballot
        ensures value { result ≡ promised_in (held_of (store_of self.now)) }
        ensures kept { (head : List ℕ) (held : model.Store) → Keeps D.Disk head held (store_of self.now) → IsTrue D.is_honest → result ≡ held.promise }
        ensures range { (result ≡ no_ballot) ⊎ IsBallot result }
    {
        self.store.held().promised()
    }

    /// Hands the disk back, with what the store kept on it. The store is private.
    pub fn close(self) -> D
        ensures { result ≡ disk_of (store_of self) }
    {
        self.store.close()
    }

    /// Makes room for accepting at so many slots more, so that `on_accept_reserved` takes no memory. An `Err` changes
    /// nothing but the room. The store makes it; it is private.
    pub fn reserve(&mut self, slots: usize) -> Result<(), AllocError>
        ensures room { OnOk result (slots ≤ room_in self.new) }
        ensures succeeds { slots ≤ room_in self.old → IsOk result }
        ensures more { room_in self.old ≤ room_in self.new }
        ensures same { IsAsBefore D.Disk (store_of self.old) (store_of self.new) }
        ensures shows { ShowSame (held_of (store_of self.old)) (held_of (store_of self.new)) }
    {
        self.store.reserve(slots)
    }

    /// Answers a Prepare, that of its own node too: a ballot above all that it promised is promised, and told is what
    /// was accepted at the 64 slots from the slot on. It takes no memory; 64 entries may be read before the append.
    ///
    /// Refused are 63 where the disk failed, and 64 at a closed store, which still tells by `Refuse` that a ballot isn't
    /// above what it promised.
    pub fn on_prepare(&mut self, ballot: Ballot, slot: u32) -> Result<PrepareAnswer, StoreFault>
        requires ballot { IsBallot ballot }
        requires slot { IsSlot slot }
        ensures taken { Taken D.Disk (answer_to_prepare ballot slot) (prepared ballot) (store_of self.old) (store_of self.new) result }
        ensures needs { NeedsStore D.Disk (refusal_of_prepare ballot slot (promised_in (held_of (store_of self.old)))) (store_of self.old) (store_of self.new) result }
        ensures fits { IfOk result (AnswersPrepare ballot slot) }
        ensures room { room_in self.new ≡ room_in self.old }
        ensures memory { IsErrOf result StoreFault.OutOfMemory → ⊥ }
    {
        records_are_moves();
        what_is_kept_is_left::<D>();
        let promised = self.store.held().promised();
        if !promised.is_below(ballot) {
            return Ok(PrepareAnswer::Refuse {
                ballot,
                slot,
                promised,
            });
        }
        let entries = entries_from(&mut self.store, slot)?;
        self.store.promise(ballot)?;
        Ok(PrepareAnswer::Promise {
            ballot,
            slot,
            entries,
        })
    }

    /// Answers a proposal, that of its own node too: it is accepted unless a ballot above it was promised. Where a
    /// command was accepted at the slot in this very ballot, that one stays and is told, and nothing is written.
    ///
    /// Refused are 92 where there is no room for the slot and no memory for it, 63 where the disk failed, and 64 at a
    /// closed store, which still tells by `Refuse` that a ballot is below what it promised.
    pub fn on_accept(
        &mut self,
        ballot: Ballot,
        slot: u32,
        command: Command,
    ) -> Result<AcceptAnswer, StoreFault>
        requires ballot { IsBallot ballot }
        requires slot { IsSlot slot }
        requires command { IsInRange command }
        ensures taken { Taken D.Disk (answer_to_accept ballot slot command) (accepted ballot slot command) (store_of self.old) (store_of self.new) result }
        ensures stored { OnlyReadsWhereVoted D.Disk ballot slot (store_of self.old) (store_of self.new) }
        ensures needs { NeedsStore D.Disk (refusal_of_accept ballot slot (promised_in (held_of (store_of self.old)))) (store_of self.old) (store_of self.new) result }
        ensures fits { IfOk result (AnswersAccept ballot slot) }
        ensures room { room_in self.old ≤ room_in self.new + 1 }
        ensures full { IsErrOf result StoreFault.OutOfMemory → room_in self.old ≡ 0 }
    {
        self.reserve(1)?;
        self.on_accept_reserved(ballot, slot, command)
    }

    /// The same where there is room for one slot: it takes no memory.
    pub fn on_accept_reserved(
        &mut self,
        ballot: Ballot,
        slot: u32,
        command: Command,
    ) -> Result<AcceptAnswer, StoreFault>
        requires ballot { IsBallot ballot }
        requires slot { IsSlot slot }
        requires command { IsInRange command }
        requires room { 1 ≤ room_in self.old }
        ensures taken { Taken D.Disk (answer_to_accept ballot slot command) (accepted ballot slot command) (store_of self.old) (store_of self.new) result }
        ensures stored { OnlyReadsWhereVoted D.Disk ballot slot (store_of self.old) (store_of self.new) }
        ensures needs { NeedsStore D.Disk (refusal_of_accept ballot slot (promised_in (held_of (store_of self.old)))) (store_of self.old) (store_of self.new) result }
        ensures fits { IfOk result (AnswersAccept ballot slot) }
        ensures room { room_in self.old ≤ room_in self.new + 1 }
        ensures memory { IsErrOf result StoreFault.OutOfMemory → ⊥ }
    {
        records_are_moves();
        what_is_kept_is_left::<D>();
        let promised = self.store.held().promised();
        if ballot.is_below(promised) {
            return Ok(AcceptAnswer::Refuse {
                ballot,
                slot,
                promised,
            });
        }
        if let Some(stored) = stored_in(&mut self.store, ballot, slot)? {
            return Ok(AcceptAnswer::Accepted {
                ballot,
                slot,
                command: stored,
            });
        }
        self.store.accept_reserved(ballot, slot, &command)?;
        Ok(AcceptAnswer::Accepted {
            ballot,
            slot,
            command,
        })
    }

    /// Answers a run of proposals in one ballot, for the slots from this one on, those of its own node too: they are
    /// accepted unless a ballot above was promised, up to the first slot that differs from the first one in whether a
    /// command was accepted there in this very ballot. Where the first one has such a command, those that stand there are
    /// told, from the list that is handed in, and nothing is written; else the beginning of the run is stored, by one
    /// append, and told.
    ///
    /// Refused are 92 where there is no room for the slots and no memory for it, 63 where the disk failed, and 64 at a
    /// closed store, which still tells by `Refuse` that a ballot is below what it promised.
    pub fn on_accept_run<'a>(
        &mut self,
        ballot: Ballot,
        slot: u32,
        commands: &'a [Command],
        told: &'a mut CommandList,
    ) -> Result<RunAnswer<'a>, StoreFault>
        requires ballot { IsBallot ballot }
        requires run { IsCommandRun slot commands.now }
        ensures taken { Taken D.Disk (answer_to_run ballot slot commands.now) (accepted_run ballot slot commands.now) (store_of self.old) (store_of self.new) result }
        ensures stored { OnlyReadsWhereVoted D.Disk ballot slot (store_of self.old) (store_of self.new) }
        ensures needs { NeedsStore D.Disk (refusal_of_run ballot slot (promised_in (held_of (store_of self.old)))) (store_of self.old) (store_of self.new) result }
        ensures fits { IfOk result (AnswersRun ballot slot commands.now) }
        ensures room { room_in self.old ≤ room_in self.new + length commands.now }
        ensures full { IsErrOf result StoreFault.OutOfMemory → room_in self.old < length commands.now }
    {
        self.reserve(commands.len())?;
        self.on_accept_run_reserved(ballot, slot, commands, told)
    }

    /// The same where there is room for as many slots: it takes no memory.
    pub fn on_accept_run_reserved<'a>(
        &mut self,
        ballot: Ballot,
        slot: u32,
        commands: &'a [Command],
        told: &'a mut CommandList,
    ) -> Result<RunAnswer<'a>, StoreFault>
        requires ballot { IsBallot ballot }
        requires run { IsCommandRun slot commands.now }
        requires room { length commands.now ≤ room_in self.old }
        ensures taken { Taken D.Disk (answer_to_run ballot slot commands.now) (accepted_run ballot slot commands.now) (store_of self.old) (store_of self.new) result }
        ensures stored { OnlyReadsWhereVoted D.Disk ballot slot (store_of self.old) (store_of self.new) }
        ensures needs { NeedsStore D.Disk (refusal_of_run ballot slot (promised_in (held_of (store_of self.old)))) (store_of self.old) (store_of self.new) result }
        ensures fits { IfOk result (AnswersRun ballot slot commands.now) }
        ensures room { room_in self.old ≤ room_in self.new + length commands.now }
        ensures memory { IsErrOf result StoreFault.OutOfMemory → ⊥ }
    {
        records_are_moves();
        what_is_kept_is_left::<D>();
        let held = self.store.held();
        let promise = held.promised();
        if ballot.is_below(promise) {
            return Ok(RunAnswer::Refuse {
                ballot,
                slot,
                promised: promise,
            });
        }
        let voted = is_voted(held, ballot, slot);
        let count = beginning_of(held, ballot, slot, commands.len(), voted);
        if voted {
            let stored = commands_from(&mut self.store, slot, count, told)?;
            return Ok(RunAnswer::Accepted {
                ballot,
                slot,
                commands: stored,
            });
        }
        let taken = &commands[..count];
        self.store.accept_run_reserved(ballot, slot, taken)?;
        Ok(RunAnswer::Accepted {
            ballot,
            slot,
            commands: Commands::new(taken),
        })
    }
}
