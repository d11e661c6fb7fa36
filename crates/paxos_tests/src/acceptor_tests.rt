ghost use Rattle.paxos_wire.specs.Fits.{IsBallot, IsInRange, IsSlot};

use crate::acceptors::{accepts, created_in_memory, opened, prepares};
use crate::journal::FIRST;
use crate::samples::{CALL, FOLD, assert_same};
use acceptor::{AcceptAnswer, Acceptor, PrepareAnswer};
use paxos_wire::{Ballot, Entries, Entry};
use promise_store::{Disk, MemoryDisk};
use slot_log::Command;
use std::alloc::Global;
use std::process::Abort;
use std::test::Fail;

const SECOND: Ballot = Ballot { round: 1, node: 1 };

/// What is answered to an Accept where room was made for it.
fn accept_with_room<D: Disk>(
    acceptor: &mut Acceptor<D>,
    ballot: Ballot,
    slot: u32,
    command: Command,
) -> Result<AcceptAnswer, Fail>
    requires ballot { IsBallot ballot }
    requires slot { IsSlot slot }
    requires command { IsInRange command }
{
    acceptor.reserve(1)?;
    Ok(acceptor.on_accept_reserved(ballot, slot, command)?)
}

/// A Prepare from slot 0 on is answered with a promise that tells these entries.
fn promises_and_tells<D: Disk>(
    rt: &impl Abort,
    acceptor: &mut Acceptor<D>,
    ballot: Ballot,
    entries: Entries,
)
    requires { IsBallot ballot }
{
    let promise = PrepareAnswer::Promise {
        ballot,
        slot: 0,
        entries,
    };
    prepares(rt, acceptor, ballot, 0, Ok(promise));
}

/// The answer to an Accept in the first ballot that is taken.
fn accepted_in_first(slot: u32, command: Command) -> AcceptAnswer {
    AcceptAnswer::Accepted {
        ballot: FIRST,
        slot,
        command,
    }
}

/// Accepts commands at slots 63 and 7 in the first ballot; room is made for the second.
fn accepts_two<D: Disk>(rt: &impl Abort, acceptor: &mut Acceptor<D>) -> Result<(), Fail> {
    accepts(
        rt,
        acceptor,
        FIRST,
        63,
        CALL,
        Ok(accepted_in_first(63, CALL)),
    );
    let answer = accept_with_room(acceptor, FIRST, 7, FOLD)?;
    assert_same(rt, answer, accepted_in_first(7, FOLD));
    Ok(())
}

/// What is told of the two, by rising slots.
fn told_of_two() -> Entries {
    let mut entries = Entries::new();
    entries.push(Entry {
        slot: 7,
        ballot: FIRST,
        command: FOLD,
    });
    entries.push(Entry {
        slot: 63,
        ballot: FIRST,
        command: CALL,
    });
    entries
}

/// The disk of a new acceptor that promised the first ballot, telling nothing, and accepted two commands in it.
fn disk_with_two(rt: &impl Abort, alloc: Global) -> Result<MemoryDisk, Fail> {
    let mut acceptor = created_in_memory(rt, alloc)?;
    promises_and_tells(rt, &mut acceptor, FIRST, Entries::new());
    accepts_two(rt, &mut acceptor)?;
    Ok(acceptor.close())
}

/// Two slots are accepted in one ballot, and told to the next.
#[test]
fn what_was_accepted_is_told(rt: HostRuntime) -> Result<(), Fail> {
    let alloc = rt.alloc();
    let disk = disk_with_two(&rt, alloc)?;
    let mut acceptor = opened(&rt, alloc, disk);
    promises_and_tells(&rt, &mut acceptor, SECOND, told_of_two());
    Ok(())
}
