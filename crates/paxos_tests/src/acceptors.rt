//! The acceptor of node 0 of 3, and what it is asked: what the tests of its answers and of its stops call and compare.

ghost use Rattle.paxos_wire.specs.Fits.{IsBallot, IsInRange, IsSlot};

use crate::journal;
use crate::samples::assert_same;
use acceptor::{AcceptAnswer, Acceptor, PrepareAnswer};
use paxos_wire::Ballot;
use promise_store::{Disk, MemoryDisk, StoreFault};
use slot_log::Command;
use std::alloc::{AllocError, Global};
use std::process::Abort;

/// The acceptor of node 0 of 3 with a new store, on a disk in memory.
pub(crate) fn created_in_memory(
    rt: &impl Abort,
    alloc: Global,
) -> Result<Acceptor<MemoryDisk>, AllocError> {
    Ok(Acceptor::new(journal::created_in_memory(rt, alloc)?))
}

/// The same with the store that the disk has.
pub(crate) fn opened<D: Disk>(rt: &impl Abort, alloc: Global, disk: D) -> Acceptor<D> {
    Acceptor::new(journal::opened(rt, alloc, disk))
}

// Each call of an acceptor stands in one function here: what a contract says is read anew wherever its call stands.

/// What is answered to a Prepare.
pub(crate) fn prepare<D: Disk>(
    acceptor: &mut Acceptor<D>,
    ballot: Ballot,
    slot: u32,
) -> Result<PrepareAnswer, StoreFault>
    requires ballot { IsBallot ballot }
    requires slot { IsSlot slot }
{
    acceptor.on_prepare(ballot, slot)
}

/// What is answered to an Accept.
pub(crate) fn accept<D: Disk>(
    acceptor: &mut Acceptor<D>,
    ballot: Ballot,
    slot: u32,
    command: Command,
) -> Result<AcceptAnswer, StoreFault>
    requires ballot { IsBallot ballot }
    requires slot { IsSlot slot }
    requires command { IsInRange command }
{
    acceptor.on_accept(ballot, slot, command)
}

/// A Prepare is answered so.
pub(crate) fn prepares<D: Disk>(
    rt: &impl Abort,
    acceptor: &mut Acceptor<D>,
    ballot: Ballot,
    slot: u32,
    expected: Result<PrepareAnswer, StoreFault>,
)
    requires ballot { IsBallot ballot }
    requires slot { IsSlot slot }
{
    assert_same(rt, prepare(acceptor, ballot, slot), expected);
}

/// An Accept is answered so.
pub(crate) fn accepts<D: Disk>(
    rt: &impl Abort,
    acceptor: &mut Acceptor<D>,
    ballot: Ballot,
    slot: u32,
    command: Command,
    expected: Result<AcceptAnswer, StoreFault>,
)
    requires ballot { IsBallot ballot }
    requires slot { IsSlot slot }
    requires command { IsInRange command }
{
    assert_same(rt, accept(acceptor, ballot, slot, command), expected);
}
