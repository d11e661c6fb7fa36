//! A store of node 0 of 3, and the bytes of its journal: what the tests of acceptors, stores and disks call and compare.

ghost use Rattle.std.specs.Prelude.{◌≡◌, ◌≤◌, length};
ghost use Rattle.std.specs.List.{AllByRecursion};
ghost use Rattle.paxos_wire.specs.Fits.{IsInRange};

use crate::samples::holds;
use paxos_wire::{Ballot, CommandList, read_command, read_commands};
use promise_store::{Call, Disk, MemoryDisk, Store, StoreFault};
use slot_log::Command;
use std::alloc::{AllocError, Global};
use std::process::Abort;
use std::test::Fail;

pub(crate) const FIRST: Ballot = Ballot { round: 1, node: 0 };

/// `TdAs|8hTc/2c8c3h/9c/Kh` of hand 0.
static DEAL: [u8; 15] = [
    0x01, 0, 0, 0, 0, 0x09, 0x21, 0x33, 0x1a, 0x20, 0x00, 0x18, 0x06, 0x1c, 0x2e,
];

/// Node 0 of 3 after a promise of (1, 0) and an accept of the deal in it at slot 0.
pub(crate) static JOURNAL: [u8; 47] = [
    0x48, 0x44, 0x4a, 0x32, 0, 3, 0, 0, 1, 0, 6, 1, 0, 0, 0, 1, 0, 1, 0, 26, 4, 0, 0, 0, 1, 0, 0,
    0, 0, 0, 1, 0x01, 0, 0, 0, 0, 0x09, 0x21, 0x33, 0x1a, 0x20, 0x00, 0x18, 0x06, 0x1c, 0x2e, 0,
];

/// The same as a journal of version 1.
pub(crate) const OLD_JOURNAL: [u8; 46] = [
    0x48, 0x44, 0x4a, 0x31, 0, 3, 0, 0, 1, 0, 6, 1, 0, 0, 0, 1, 0, 1, 0, 25, 2, 0, 0, 0, 1, 0, 0,
    0, 0, 0, 0x01, 0, 0, 0, 0, 0x09, 0x21, 0x33, 0x1a, 0x20, 0x00, 0x18, 0x06, 0x1c, 0x2e, 0,
];

fn deal(rt: &impl Abort) -> Command
    ensures { IsInRange result }
{
    match read_command(&DEAL) {
        Some((command, _)) => command,
        None => panic!(rt; "a deal"),
    }
}

/// The commands whose bytes stand in front of these.
pub(crate) fn commands(rt: &impl Abort, bytes: &[u8], count: usize) -> CommandList
    requires { count ≤ 64 }
    ensures count { length result ≡ count }
    ensures range { AllByRecursion IsInRange result }
{
    let mut list = CommandList::new();
    match read_commands(bytes, count, &mut list) {
        Some(_) => list,
        None => panic!(rt; "{count} commands"),
    }
}

/// A disk in memory with these bytes.
pub(crate) fn disk_with(alloc: Global, bytes: &[u8], fuses: &[u64]) -> Result<MemoryDisk, Fail> {
    let mut disk = MemoryDisk::new(alloc, fuses)?;
    disk.write_at(0, bytes)?;
    Ok(disk)
}

// Each call of a store stands in one function here: what a contract says is read anew wherever its call stands.

/// A new store of node 0 of 3 on the disk; or why there is none, and the disk.
pub(crate) fn create<D: Disk>(alloc: Global, disk: D) -> Result<Store<D>, (D, StoreFault)> {
    Store::create(alloc, disk, 0, 3)
}

/// The store of node 0 of 3 that the disk has; or why there is none, and the disk.
pub(crate) fn open<D: Disk>(alloc: Global, disk: D) -> Result<Store<D>, (D, StoreFault)> {
    Store::open(alloc, disk, 0, 3)
}

/// A new store on a disk that doesn't fail.
pub(crate) fn created<D: Disk>(rt: &impl Abort, alloc: Global, disk: D) -> Store<D> {
    match create(alloc, disk) {
        Ok(store) => store,
        Err(_) => panic!(rt; "create"),
    }
}

/// The store of a disk that doesn't fail.
pub(crate) fn opened<D: Disk>(rt: &impl Abort, alloc: Global, disk: D) -> Store<D> {
    match open(alloc, disk) {
        Ok(store) => store,
        Err(_) => panic!(rt; "open"),
    }
}

/// A new store on a disk in memory.
pub(crate) fn created_in_memory(
    rt: &impl Abort,
    alloc: Global,
) -> Result<Store<MemoryDisk>, AllocError> {
    Ok(created(rt, alloc, MemoryDisk::new(alloc, &[])?))
}

/// Stores the promise of the first ballot.
pub(crate) fn promise<D: Disk>(store: &mut Store<D>) -> Result<(), StoreFault> {
    store.promise(FIRST)
}

/// Stores that the deal was accepted in the first ballot at slot 0.
fn accept<D: Disk>(rt: &impl Abort, store: &mut Store<D>) -> Result<(), StoreFault> {
    store.accept(FIRST, 0, &deal(rt))
}

/// Stores both, the promise and the accept.
pub(crate) fn store_both<D: Disk>(rt: &impl Abort, store: &mut Store<D>) -> Result<(), StoreFault> {
    promise(store)?;
    accept(rt, store)
}

/// What was accepted at a slot.
fn entry<D: Disk>(
    store: &mut Store<D>,
    slot: u32,
) -> Result<Option<(Ballot, Command)>, StoreFault> {
    store.entry(slot)
}

/// What a call of a disk wrote: where, which bytes, and whether all of it; nothing of a sync.
pub(crate) fn written<'a>(rt: &impl Abort, call: &'a Call) -> Option<(usize, &'a [u8], bool)> {
    match call {
        Call::Wrote { at, bytes, done } => Some((*at, bytes.as_slice(), *done)),
        Call::Synced => None,
        Call::Stopped { .. } => panic!(rt; "a stop"),
    }
}

/// Whether the store has promised the first ballot, and has the deal accepted in it at slot 0.
fn has_both<D: Disk>(rt: &impl Abort, store: &mut Store<D>) -> Result<bool, Fail> {
    let found = entry(store, 0)?;
    Ok(store.held().promised() == FIRST && found == Some((FIRST, deal(rt))))
}

/// The store that is opened on the disk has both.
pub(crate) fn keeps_both<D: Disk + Drop>(
    rt: &impl Abort,
    alloc: Global,
    disk: D,
) -> Result<(), Fail> {
    let mut store = opened(rt, alloc, disk);
    holds!(rt; has_both(rt, &mut store)?);
    Ok(())
}

/// A next number of the generator of Lehmer (multiplier 48271 modulo 2^31 - 1).
pub(crate) fn next(seed: &mut u64) -> u64 {
    *seed = *seed % 2_147_483_647 * 48_271 % 2_147_483_647;
    *seed
}
