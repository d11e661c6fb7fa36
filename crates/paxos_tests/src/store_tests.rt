use crate::journal::{
    JOURNAL, created, created_in_memory, keeps_both, promise, store_both, written,
};
use crate::samples::{assert_bytes, assert_same, holds};
use promise_store::{Call, MemoryDisk};
use std::alloc::Global;
use std::process::Abort;
use std::test::Fail;

/// The disk of a new store that stored both.
fn disk_with_both(rt: &impl Abort, alloc: Global) -> Result<MemoryDisk, Fail> {
    let mut store = created_in_memory(rt, alloc)?;
    store_both(rt, &mut store)?;
    Ok(store.close())
}

#[test]
fn journal_byte_by_byte(rt: HostRuntime) -> Result<(), Fail> {
    let alloc = rt.alloc();
    let disk = disk_with_both(&rt, alloc)?;
    assert_bytes(&rt, disk.bytes(), JOURNAL.as_slice());
    keeps_both(&rt, alloc, disk)
}

/// The disk of a new store with a promise of the first ballot; before there was no call.
fn disk_with_a_promise(rt: &impl Abort, alloc: Global) -> Result<MemoryDisk, Fail> {
    let disk = MemoryDisk::new(alloc, &[])?;
    holds!(rt; disk.calls().is_empty());
    let mut store = created(rt, alloc, disk);
    promise(&mut store)?;
    Ok(store.close())
}

/// What the calls of a create and of an append write; nothing of a sync.
static CALLS: [Option<(usize, &[u8], bool)>; 6] = [
    Some((0, &[72, 68, 74, 50, 0, 3, 0, 0, 0], true)),
    None,
    Some((9, &[0, 6, 1, 0, 0, 0, 1, 0, 0], true)),
    None,
    Some((8, &[1], true)),
    None,
];

/// The calls are those of a create and of an append.
fn are_told(rt: &impl Abort, calls: &[Call]) {
    assert!(rt; calls.len() == CALLS.len());
    for at in 0..CALLS.len() {
        assert_same(rt, written(rt, &calls[at]), CALLS[at]);
    }
}

/// An append is a write of the record and a shut gate behind the gate, a sync, a write of the gate, and a sync.
#[test]
fn the_four_calls_of_an_append(rt: HostRuntime) -> Result<(), Fail> {
    let alloc = rt.alloc();
    let disk = disk_with_a_promise(&rt, alloc)?;
    are_told(&rt, disk.calls());
    Ok(())
}
