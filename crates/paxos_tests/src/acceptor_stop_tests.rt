use crate::acceptors::{accept, opened, prepare, prepares};
use crate::journal::{self, FIRST};
use crate::samples::{CALL, assert_same, holds};
use acceptor::{AcceptAnswer, Acceptor, PrepareAnswer};
use paxos_wire::Ballot;
use promise_store::{Disk, MemoryDisk, StoreFault};
use std::alloc::Global;
use std::process::Abort;
use std::test::Fail;

const THIRD: Ballot = Ballot { round: 2, node: 0 };

/// The ballot that the acceptor has promised.
fn promised<D: Disk>(acceptor: &Acceptor<D>) -> Ballot {
    acceptor.store().held().promised()
}

/// The acceptor of what its disk has after a stop with this pick.
fn stopped<D: Disk>(
    rt: &impl Abort,
    alloc: Global,
    acceptor: Acceptor<D>,
    pick: u64,
) -> Acceptor<D> {
    let mut disk = acceptor.close();
    disk.stop(pick);
    opened(rt, alloc, disk)
}

/// Whether the third ballot is promised; where the disk fails, the store is closed.
fn promises<D: Disk>(rt: &impl Abort, acceptor: &mut Acceptor<D>) -> bool {
    match prepare(acceptor, THIRD, 0) {
        Ok(answer) => matches!(answer, PrepareAnswer::Promise { .. }),
        Err(fault) => {
            assert_same(rt, fault, StoreFault::Disk);
            prepares(rt, acceptor, THIRD, 0, Err(StoreFault::Closed));
            false
        }
    }
}

/// Whether a proposal below the third ballot is accepted; a refusal tells that ballot.
fn accepts_below<D: Disk>(rt: &impl Abort, acceptor: &mut Acceptor<D>) -> Result<bool, StoreFault> {
    match accept(acceptor, FIRST, 0, CALL)? {
        AcceptAnswer::Accepted { .. } => Ok(true),
        AcceptAnswer::Refuse { promised, .. } => {
            assert_same(rt, promised, THIRD);
            Ok(false)
        }
    }
}

/// The acceptor of a new store that is opened again on the disk, unless one of the two fails.
fn created_and_opened<D: Disk + Drop>(alloc: Global, disk: D) -> Option<Acceptor<D>> {
    let Ok(store) = journal::create(alloc, disk) else {
        return None;
    };
    let Ok(store) = journal::open(alloc, store.close()) else {
        return None;
    };
    Some(Acceptor::new(store))
}

/// What is left of a Prepare: whether it was promised, and once the disk stopped with a pick, whether the promise is there
/// and whether a proposal below it is accepted.
type Left = (bool, bool, bool);

/// What is left of create, open and a Prepare on a disk that fails from its call of this number on, and stops with this
/// pick; `None` where create or open failed.
fn left_of_a_prepare(
    rt: &impl Abort,
    alloc: Global,
    calls: u64,
    pick: u64,
) -> Result<Option<Left>, Fail> {
    let disk = MemoryDisk::new(alloc, &[calls])?;
    let Some(mut acceptor) = created_and_opened(alloc, disk) else {
        return Ok(None);
    };
    let is_promised = promises(rt, &mut acceptor);
    let mut acceptor = stopped(rt, alloc, acceptor, pick);
    let is_there = promised(&acceptor) == THIRD;
    Ok(Some((is_promised, is_there, accepts_below(rt, &mut acceptor)?)))
}

/// This is left of a Prepare.
fn is_left(
    rt: &impl Abort,
    alloc: Global,
    calls: u64,
    pick: u64,
    expected: Option<Left>,
) -> Result<(), Fail> {
    assert_same(rt, left_of_a_prepare(rt, alloc, calls, pick)?, expected);
    Ok(())
}

/// Without the third call of a promise none is there, and after its fourth one is.
fn is_left_for_certain(rt: &impl Abort, alloc: Global, pick: u64) -> Result<(), Fail> {
    for calls in 0..6u64 {
        is_left(rt, alloc, calls, pick, None)?;
    }
    is_left(rt, alloc, 6, pick, Some((false, false, true)))?;
    is_left(rt, alloc, 7, pick, Some((false, false, true)))?;
    is_left(rt, alloc, 10, pick, Some((true, true, false)))
}

/// Between the two it depends on the pick: where it isn't there a proposal below is accepted.
fn is_kept(rt: &impl Abort, alloc: Global, calls: u64, pick: u64) -> Result<bool, Fail> {
    match left_of_a_prepare(rt, alloc, calls, pick)? {
        Some((false, is_there, is_accepted)) => {
            holds!(rt; is_there != is_accepted);
            Ok(is_there)
        }
        _ => panic!(rt; "a promise that isn't stored"),
    }
}

/// Create takes two calls of the disk, open four here, and a promise four.
#[test]
fn stops_in_a_promise(rt: HostRuntime) -> Result<(), Fail> {
    let alloc = rt.alloc();
    let mut kept = false;
    let mut lost = false;
    for pick in 0..9u64 {
        is_left_for_certain(&rt, alloc, pick)?;
        for calls in 8..10u64 {
            if is_kept(&rt, alloc, calls, pick)? {
                kept = true;
            } else {
                lost = true;
            }
        }
    }
    holds!(&rt; kept);
    holds!(&rt; lost);
    Ok(())
}
