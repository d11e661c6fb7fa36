ghost use Rattle.std.specs.Prelude.{◌≡◌, ◌≢◌, ◌+◌, ◌<◌, ◌≤◌, ◌↔◌, ◌&&◌, ℕ, [], length, reverse, None, if◌then◌else◌, is_ok, is_none, IsOk, IsErrOf, IfOk, IfSome, IsSomeAnd, OnOk, OnErr, IsTrue};
ghost use Rattle.std.specs.Option.{option_copied};
ghost use Rattle.slot_log.specs.Slots.{Log, IsLog, front, known_at, with_command};
ghost use Rattle.slot_log.specs.declared.slot_fault.SlotFault.TheVariants.{Conflict, SlotsSpent};

use crate::command::Command;
use crate::known::{self, Known};
use crate::laws::one_more_is_known;
use crate::limits::SLOTS;
use crate::slot_fault::SlotFault;
use std::alloc::{AllocError, Global};
use std::marker::Model;

/// The commands that are known at the slots of a match.
///
/// Contracts see the commands below the front, newest first, those that are known beyond it, by rising slots, and for
/// how many further commands there is room without further memory.
pub struct SlotLog {
    below: Vec<Command>,
    beyond: Vec<Known>,
}

/// By hand, so that letting one go is one call for whoever owns it (docs/ARCHITECTURE.md, Habits).
impl Drop for SlotLog {
    fn drop(self) {
        let SlotLog {
            below: _,
            beyond: _,
        } = self;
    }
}

impl Model for SlotLog {
    ghost use Rattle.slot_log.specs.Slots.{Slots};

    ghost Value = { Slots };

    ghost use Rattle.slot_log.specs.SlotsInside.{IsKept, slots_of};

    ghost view = { slots_of };

    ghost invariant = { IsKept };
}

impl SlotLog {
    /// A log in which nothing is known. It takes no memory; what `put` and `reserve` take comes from this allocator.
    pub fn new(alloc: Global) -> SlotLog
        ensures { result ≡ record { log = record { below = []; beyond = [] }; room = 0 } }
    {
        SlotLog {
            below: Vec::new(alloc),
            beyond: Vec::new(alloc),
        }
    }

    /// What holds of every log: nothing is known at the front, and what is known beyond it has rising slots below
    /// 4,000,000.
    pub fn limits(&self)
        ensures { IsLog self.now.log }
    {
        let _ = &self.below;
    }

    /// The first slot whose command isn't known, 0 to 4,000,000.
    pub fn front(&self) -> u32
        ensures value { result ≡ front self.now.log }
        ensures most { result ≤ SLOTS }
    {
        self.below.len() as u32
    }

    /// The command that is known at a slot.
    pub fn get(&self, slot: u32) -> Option<&Command>
        ensures { option_copied result ≡ known_at self.now.log slot }
    {
        if slot < self.front() {
            self.below.get(slot as usize)
        } else {
            known::find(&self.beyond, slot)
        }
    }

    /// The commands below the front, that of slot 0 first.
    pub fn commands(&self) -> &[Command]
        ensures value { result.now ≡ reverse self.now.log.below }
        ensures len { length result.now ≡ front self.now.log }
    {
        &self.below
    }

    /// How many commands are known beyond the front. It keeps the list of them to this file.
    pub fn ahead(&self) -> usize
        ensures { result ≡ length self.now.log.beyond }
    {
        self.beyond.len()
    }

    /// How far the front goes on where a command becomes known at this slot: 0 where it isn't the front's.
    pub fn run_with(&self, slot: u32) -> usize
        ensures { (command : Command) → result + front self.now.log ≡ front (with_command self.now.log slot command) }
    {
        if slot == self.front() {
            1 + known::run_at(&self.beyond, slot as usize + 1)
        } else {
            0
        }
    }

    /// Puts a command at a slot. Where nothing is known there it becomes known, and the front goes on over all that
    /// then follows without a gap; where the same command is known nothing changes. Refused are, and leave the log as
    /// it was, 31 a slot of 4,000,000 or above and 30 a slot where another command is known.
    ///
    /// An `Err` comes only where a command is to become known and memory for it was refused; then the log is as before.
    pub fn put(&mut self, slot: u32, command: Command) -> Result<Result<(), SlotFault>, AllocError>
        ensures ok { IfOk result (λ answer. IsOk answer ↔ (slot < SLOTS) × IfSome (known_at self.old.log slot) (λ known. known ≡ command)) }
        ensures conflict { IfOk result (λ answer. IsErrOf answer Conflict ↔ IsSomeAnd (known_at self.old.log slot) (λ known. known ≢ command)) }
        ensures spent { IfOk result (λ answer. IsErrOf answer SlotsSpent ↔ SLOTS ≤ slot) }
        ensures log { IfOk result (λ answer. self.new.log ≡ (if is_ok answer && is_none (known_at self.old.log slot) then with_command self.old.log slot command else self.old.log)) }
        ensures room { self.old.room ≤ self.new.room + 1 }
        ensures err { OnErr result (self.new.log ≡ self.old.log) }
        ensures full { OnErr result (self.old.room ≡ 0) }
        ensures new { OnErr result (known_at self.old.log slot ≡ None) }
    {
        match self.is_new(slot, &command) {
            Err(fault) => Ok(Err(fault)),
            Ok(false) => Ok(Ok(())),
            Ok(true) => {
                self.reserve(1)?;
                self.add(slot, command);
                Ok(Ok(()))
            }
        }
    }

    /// Puts a command at a slot, as `put` does, where there is room for one: this wants no memory.
    pub fn put_reserved(&mut self, slot: u32, command: Command) -> Result<(), SlotFault>
        requires { 1 ≤ self.old.room }
        ensures ok { IsOk result ↔ (slot < SLOTS) × IfSome (known_at self.old.log slot) (λ known. known ≡ command) }
        ensures conflict { IsErrOf result Conflict ↔ IsSomeAnd (known_at self.old.log slot) (λ known. known ≢ command) }
        ensures spent { IsErrOf result SlotsSpent ↔ SLOTS ≤ slot }
        ensures log { self.new.log ≡ (if is_ok result && is_none (known_at self.old.log slot) then with_command self.old.log slot command else self.old.log) }
        ensures room { self.old.room ≤ self.new.room + 1 }
    {
        if self.is_new(slot, &command)? {
            self.add(slot, command);
        }
        Ok(())
    }

    /// Makes room for so many commands: the next that many calls of `put` don't want memory.
    ///
    /// An `Err` comes only where memory was refused; then the log is as before.
    pub fn reserve(&mut self, commands: usize) -> Result<(), AllocError>
        ensures room { OnOk result (commands ≤ self.new.room) }
        ensures kept { self.old.room ≤ self.new.room }
        ensures same { self.new.log ≡ self.old.log }
        ensures full { OnErr result (self.old.room < commands) }
    {
        self.below
            .reserve(commands.saturating_add(self.beyond.len()))?;
        self.beyond.reserve(commands)
    }

    /// Whether a command that may be put at a slot isn't known there yet.
    fn is_new(&self, slot: u32, command: &Command) -> Result<bool, SlotFault>
        ensures ok { IsOk result ↔ (slot < SLOTS) × IfSome (known_at self.now.log slot) (λ known. known ≡ command.now) }
        ensures conflict { IsErrOf result Conflict ↔ IsSomeAnd (known_at self.now.log slot) (λ known. known ≢ command.now) }
        ensures spent { IsErrOf result SlotsSpent ↔ SLOTS ≤ slot }
        ensures new { IfOk result (λ new. new ≡ is_none (known_at self.now.log slot)) }
    {
        let _ = &self.beyond;
        if SLOTS <= slot {
            return Err(SlotFault::SlotsSpent);
        }
        match self.get(slot) {
            None => Ok(true),
            Some(known) if known.is_same(command) => Ok(false),
            Some(_) => Err(SlotFault::Conflict),
        }
    }

    /// Lets a command be known at a slot where none is.
    fn add(&mut self, slot: u32, command: Command)
        requires room { 1 ≤ self.old.room }
        requires slot { slot < SLOTS }
        requires new { known_at self.old.log slot ≡ None }
        ensures log { self.new.log ≡ with_command self.old.log slot command }
        ensures room { self.old.room ≤ self.new.room + 1 }
    {
        one_more_is_known();
        known::add(&mut self.beyond, slot, command);
        known::advance_front(&mut self.below, &mut self.beyond);
    }
}
