//! A journal, read from its first gate on through a buffer of 4096 bytes.

ghost use Rattle.std.specs.Prelude.{◌≡◌, ◌≢◌, ◌⊎◌, ◌+◌, ◌-◌, ◌^◌, ◌<◌, ◌≤◌, ◌++◌, List, ℕ, length, drop, take, min, IsTrue, IsErrOf, IfOk, IfErr, MatchOption, MatchResult, Some, Ok};
ghost use Rattle.slot_log.specs.declared.command.Command.{Command};
ghost use Rattle.paxos_wire.specs.Fits.{IsInRange, IsCommand};
ghost use Rattle.paxos_wire.specs.Spelling.{command_text};
ghost use Rattle.promise_store.specs.declared.records.Record.{Record};
ghost use Rattle.promise_store.specs.declared.stage.Stage.{Stage};
ghost use Rattle.promise_store.specs.Disks.{Counts, Rose};
ghost use Rattle.promise_store.specs.Stages.{head_of, stage_behind};
ghost use Rattle.promise_store.specs.Journals.{header, IsStep, IsShut, OpensFrom};
ghost use Rattle.promise_store.specs.Settled.{OnlyReads};
ghost use Rattle.promise_store.specs.Reading.{IsReadTo, IsRead};
ghost use Rattle.promise_store.specs.Refusals.{Refuses};

use crate::disk::{Disk, DiskFault};
use crate::fault::StoreFault;
use crate::held::Held;
use crate::placed::Placed;
use crate::records::{MOST_GATED, Record};
use crate::stage::Stage;
use crate::texts::read_payload;
use paxos_wire::limits::MOST_COMMAND;
use paxos_wire::{CommandList, read_command};
use slot_log::Command;
use std::alloc::Global;

/// The bytes that a journal is read by.
pub const ROOM: usize = 4096;

/// The bytes of a journal's header, and so the place of its first gate.
pub const HEADER: usize = 8;

/// What stands at a gate.
#[derive(Drop)]
pub enum Step<'a> {
    /// The gate isn't open: the journal ends here.
    Shut,
    /// Behind the open gate stands a record whose payload has so many bytes, and then the next gate.
    Found { record: Record<'a>, size: usize },
    /// Neither.
    Broken,
}

/// What stands at a gate, by the bytes from the gate on. The commands of a run stand in the room.
pub fn read_step<'a>(bytes: &[u8], room: &'a mut CommandList) -> Step<'a>
    ensures { IsStep bytes.now result }
{
    match bytes {
        [1, high, low, rest @ ..] => {
            let size = 256 * *high as usize + *low as usize;
            if size >= rest.len() {
                return Step::Broken;
            }
            match read_payload(&rest[..size], room) {
                Some(record) => Step::Found { record, size },
                None => Step::Broken,
            }
        }
        [] | [1, ..] => Step::Broken,
        _ => Step::Shut,
    }
}

/// Reads as much as the window holds, or as there is.
fn refill<D: Disk>(
    disk: &mut D,
    window: &mut [u8],
    at: usize,
    len: usize,
) -> Result<usize, DiskFault>
    requires window { length window.old ≡ ROOM }
    requires at { at ≤ len }
    ensures count { IfOk result (λ filled. filled ≡ min ROOM (len - at)) }
    ensures window { IsTrue D.is_honest → IfOk result (λ filled. take filled window.new ≡ take filled (drop at (D.seen disk.old))) }
    ensures reads { OnlyReads D.Disk disk.old disk.new }
    ensures failed { Counts result (D.count disk.old) (D.count disk.new) }
{
    let filled = ROOM.min(len - at);
    disk.read(at, &mut window[..filled])?;
    Ok(filled)
}

/// The window's place and count once it shows enough from a place on: the bytes of the longest record with both its
/// gates, or all that there are.
fn show<D: Disk>(
    disk: &mut D,
    window: &mut [u8],
    start: usize,
    filled: usize,
    at: usize,
    len: usize,
) -> Result<(usize, usize), DiskFault>
    requires room { length window.old ≡ ROOM }
    requires order { start ≤ at }
    requires within { at ≤ start + filled }
    requires count { start + filled ≤ len }
    requires few { filled ≤ ROOM }
    requires window { IsTrue D.is_honest → take filled window.old ≡ take filled (drop start (D.seen disk.old)) }
    ensures shows { IfOk result (λ x. (x.0 ≤ at) × (at ≤ x.0 + x.1) × (x.0 + x.1 ≤ len) × (x.1 ≤ ROOM) × ((MOST_GATED ≤ x.0 + x.1 - at) ⊎ (len ≤ x.0 + x.1))) }
    ensures window { IsTrue D.is_honest → IfOk result (λ x. take x.1 window.new ≡ take x.1 (drop x.0 (D.seen disk.old))) }
    ensures reads { OnlyReads D.Disk disk.old disk.new }
    ensures failed { Counts result (D.count disk.old) (D.count disk.new) }
{
    if start + filled - at >= MOST_GATED || start + filled >= len {
        return Ok((start, filled));
    }
    let count = refill(disk, window, at, len)?;
    Ok((at, count))
}

/// Reads the records behind open gates, up to the first gate that isn't open: its place, what the records make, and the
/// stage behind them. A record that may not stand in its stage is none.
pub fn read_records<D: Disk>(
    alloc: Global,
    disk: &mut D,
    len: usize,
    first: Stage,
) -> Result<(usize, Held, Stage), StoreFault>
    requires first { HEADER ≤ len }
    requires len { IsTrue D.is_honest → len ≡ length (D.seen disk.old) }
    ensures found { IfOk result (λ found. IsReadTo D.is_honest (D.seen disk.old) first HEADER found.0 found.2 found.1) }
    ensures shut { IsTrue D.is_honest → IfOk result (λ found. IsShut (drop found.0 (D.seen disk.old))) }
    ensures broken { IsTrue D.is_honest → IsErrOf result StoreFault.BadRecord → (last : Stage) (records : List Record)
        → stage_behind first records ≡ Some last → OpensFrom (drop HEADER (D.seen disk.old)) records → ⊥ }
    ensures reads { OnlyReads D.Disk disk.old disk.new }
    ensures failed { IsErrOf result StoreFault.Disk → Rose (D.count disk.old) (D.count disk.new) }
    ensures only { IfErr result (λ e. (e ≡ StoreFault.Disk) ⊎ ((e ≡ StoreFault.BadRecord) ⊎ (e ≡ StoreFault.OutOfMemory))) }
{
    let mut window = [0u8; ROOM];
    let mut room = CommandList::new();
    let mut start = HEADER;
    let mut filled = 0;
    let mut at = HEADER;
    let mut stage = first;
    let mut held = Held::new(alloc);
    'records: loop {
        (start, filled) = match show(disk, &mut window, start, filled, at, len) {
            Ok(shown) => shown,
            Err(_) => return Err(StoreFault::Disk),
        };
        match read_step(&window[at - start..filled], &mut room) {
            Step::Broken => return Err(StoreFault::BadRecord),
            Step::Shut => return Ok((at, held, stage)),
            Step::Found { record, size } => {
                let Some(next) = stage.after(&record) else {
                    return Err(StoreFault::BadRecord);
                };
                held.take_record(at, size, &record)?;
                stage = next;
                at += size + 3;
            }
        }
    }
}

/// The stage that a journal of this node of so many begins in, by its first bytes: HDJ, 1 or 2 for the version, the node,
/// the count of nodes, and two zeros. `None` where they are no such header.
fn first_stage(bytes: &[u8; HEADER], node: u8, nodes: u8) -> Option<Stage>
    ensures { MatchOption result ((stage : Stage) → bytes.now ≢ head_of stage (header node nodes)) (λ stage. bytes.now ≡ head_of stage (header node nodes)) }
{
    if *bytes == [b'H', b'D', b'J', b'2', node, nodes, 0, 0] {
        return Some(Stage::New);
    }
    if *bytes == [b'H', b'D', b'J', b'1', node, nodes, 0, 0] {
        return Some(Stage::Old);
    }
    None
}

/// Syncs, and reads the journal of this node of so many: the place of the gate behind its records, what they make, and
/// the stage behind them.
pub fn read_journal<D: Disk>(
    alloc: Global,
    disk: &mut D,
    node: u8,
    nodes: u8,
) -> Result<(usize, Held, Stage), StoreFault>
    ensures found { IfOk result (λ found. IsRead D.Disk (header node nodes) disk.new found.0 found.2 found.1) }
    ensures refused { IsTrue D.is_honest → IfErr result (λ fault. Refuses (header node nodes) (D.seen disk.old) fault) }
    ensures reads { OnlyReads D.Disk disk.old disk.new }
    ensures failed { IsErrOf result StoreFault.Disk → Rose (D.count disk.old) (D.count disk.new) }
{
    let Ok(()) = disk.sync() else {
        return Err(StoreFault::Disk);
    };
    let Ok(len) = disk.len() else {
        return Err(StoreFault::Disk);
    };
    if len == 0 {
        return Err(StoreFault::NoStore);
    }
    if len <= HEADER {
        return Err(StoreFault::BadHeader);
    }
    let mut head = [0u8; HEADER];
    let Ok(()) = disk.read(0, &mut head) else {
        return Err(StoreFault::Disk);
    };
    let Some(first) = first_stage(&head, node, nodes) else {
        return Err(StoreFault::BadHeader);
    };
    read_records(alloc, disk, len, first)
}

/// Reads the accepted command that stands at a place.
pub fn read_command_at<D: Disk>(disk: &mut D, placed: Placed) -> Result<Command, StoreFault>
    ensures found { IsTrue D.is_honest → placed.place + placed.inside < 2 ^ 64 → (command : Command) (rest : List ℕ) → IsCommand command
        → take (min MOST_COMMAND (placed.length - placed.inside)) (drop (placed.place + placed.inside) (D.seen disk.old)) ≡ command_text command ++ rest
        → MatchResult result (λ found. found ≡ command) (λ fault. fault ≡ StoreFault.Disk) }
    ensures reads { OnlyReads D.Disk disk.old disk.new }
    ensures failed { IsErrOf result StoreFault.Disk → Rose (D.count disk.old) (D.count disk.new) }
    ensures only { IfErr result (λ fault. (fault ≡ StoreFault.Disk) ⊎ (fault ≡ StoreFault.BadRecord)) }
    ensures range { IfOk result (λ command. IsInRange command) }
{
    let place = placed.place.saturating_add(placed.inside as usize);
    let size = placed.length.saturating_sub(placed.inside) as usize;
    let mut bytes = [0u8; MOST_COMMAND];
    let window = &mut bytes[..MOST_COMMAND.min(size)];
    match disk.read(place, window) {
        Ok(()) => command_in(window),
        Err(_) => Err(StoreFault::Disk),
    }
}

/// The command that bytes begin with.
fn command_in(bytes: &[u8]) -> Result<Command, StoreFault>
    ensures command { (command : Command) (rest : List ℕ) → IsCommand command → bytes.now ≡ command_text command ++ rest → result ≡ Ok command }
    ensures range { IfOk result (λ command. IsInRange command) }
    ensures only { IfErr result (λ fault. fault ≡ StoreFault.BadRecord) }
{
    match read_command(bytes) {
        Some((command, _)) => Ok(command),
        None => Err(StoreFault::BadRecord),
    }
}
