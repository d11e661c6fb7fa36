//! What opening leaves of a journal of version 1 where its disk stops in it, and that looking leaves it as it is. What
//! opening and looking answer to journals, and leave of them, is told by rows of `tests/inputs`.

use crate::journal::{OLD_JOURNAL, disk_with, keeps_both, open};
use crate::samples::{assert_bytes, assert_same, holds};
use promise_store::{Disk, MemoryDisk, Store};
use std::alloc::Global;
use std::process::Abort;
use std::test::Fail;

/// What opening a disk answers, by the fault's number or 0, and the disk.
fn after_opening(alloc: Global, disk: MemoryDisk) -> (u8, MemoryDisk) {
    match open(alloc, disk) {
        Ok(store) => (0, store.close()),
        Err((disk, fault)) => (fault.code(), disk),
    }
}

/// The same of a look.
fn after_looking(alloc: Global, disk: MemoryDisk) -> (u8, MemoryDisk) {
    match Store::look(alloc, disk, 0, 3) {
        Ok(disk) => (0, disk),
        Err((disk, fault)) => (fault.code(), disk),
    }
}

/// The old journal on a disk that fails from its call of this number on, behind the sync.
fn old_disk(alloc: Global, calls: u64) -> Result<MemoryDisk, Fail> {
    let mut disk = disk_with(alloc, &OLD_JOURNAL, &[calls.saturating_add(2)])?;
    disk.sync()?;
    Ok(disk)
}

/// Whether the old journal is opened on a disk that fails from its call of this number on; 63 where it isn't. After a stop
/// with this pick it is the same store. Beside it how many bytes the stop left.
fn stops_in_an_opening(
    rt: &impl Abort,
    alloc: Global,
    calls: u64,
    pick: u64,
) -> Result<(bool, usize), Fail> {
    let (code, mut disk) = after_opening(alloc, old_disk(alloc, calls)?);
    holds!(rt; matches!(code, 0 | 63));
    disk.stop(pick);
    let left = disk.bytes().len();
    keeps_both(rt, alloc, disk)?;
    Ok((code == 0, left))
}

/// How many calls of the disk an opening takes that is stopped with this pick at each of them. Once its append began the
/// stop may leave four bytes more, and it leaves them once the append has ended.
fn calls_of_an_opening(rt: &impl Abort, alloc: Global, pick: u64) -> Result<u64, Fail> {
    for calls in 0..100u64 {
        let (is_opened, left) = stops_in_an_opening(rt, alloc, calls, pick)?;
        if is_opened {
            assert_same(rt, left, OLD_JOURNAL.len() + 4);
            return Ok(calls);
        }
        holds!(rt; left == OLD_JOURNAL.len() || left == OLD_JOURNAL.len() + 4);
    }
    panic!(rt; "calls without end")
}

/// It takes at least a sync, a length, a read, and the four calls of its append.
#[test]
fn stops_while_an_old_journal_is_opened(rt: HostRuntime) -> Result<(), Fail> {
    let alloc = rt.alloc();
    for pick in 0..9u64 {
        holds!(&rt; calls_of_an_opening(&rt, alloc, pick)? > 6);
    }
    Ok(())
}

/// Whether a look passes on a disk that fails from its call of this number on; 63 where it doesn't. The bytes stay.
fn looks_on(rt: &impl Abort, alloc: Global, calls: u64) -> Result<bool, Fail> {
    let (code, disk) = after_looking(alloc, old_disk(alloc, calls)?);
    holds!(rt; matches!(code, 0 | 63));
    assert_bytes(rt, disk.bytes(), &OLD_JOURNAL);
    Ok(code == 0)
}

/// It takes at least a sync, a length and a read.
#[test]
fn stops_in_a_look(rt: HostRuntime) -> Result<(), Fail> {
    let alloc = rt.alloc();
    for calls in 0..100u64 {
        if looks_on(&rt, alloc, calls)? {
            holds!(&rt; calls > 2);
            return Ok(());
        }
    }
    panic!(rt; "calls without end")
}
