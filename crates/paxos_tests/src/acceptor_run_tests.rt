//! What an acceptor answers to proposals for slots that follow one another.

ghost use Rattle.std.specs.Prelude.{◌+◌, ◌≤◌};
ghost use Rattle.paxos_wire.specs.Fits.{IsBallot};

use crate::acceptors::created_in_memory;
use crate::journal::{FIRST, commands};
use crate::samples::{FIVE, assert_same, holds};
use acceptor::{Acceptor, RunAnswer};
use paxos_wire::{Ballot, CommandList};
use promise_store::{Disk, StoreFault};
use slot_log::Command;
use std::process::Abort;
use std::test::Fail;

/// Sees that these commands are answered in a ballot from a slot on.
fn are_accepted(
    rt: &impl Abort,
    (of, at, found): (Ballot, u32, &[Command]),
    (ballot, slot): (Ballot, u32),
    (bytes, count): (&[u8], usize),
) {
    assert_same(rt, (of, at), (ballot, slot));
    assert!(rt; count <= 64);
    let expected = commands(rt, bytes, count);
    holds!(rt; found == expected.as_slice());
}

/// A run of proposals in a ballot from a slot on is answered with these commands.
fn is_answer(
    rt: &impl Abort,
    answer: Result<RunAnswer<'_>, StoreFault>,
    place: (Ballot, u32),
    wanted: (&[u8], usize),
) {
    match answer {
        Ok(
            RunAnswer::Accepted {
                ballot,
                slot,
                commands,
            },
        ) => are_accepted(rt, (ballot, slot, commands.as_slice()), place, wanted),
        _ => panic!(rt; "another answer"),
    }
}

/// So many commands, whose bytes begin these, are proposed in a ballot from a slot on, and answered.
fn accepts_run<D: Disk>(
    rt: &impl Abort,
    acceptor: &mut Acceptor<D>,
    ballot: Ballot,
    slot: u32,
    bytes: &[u8],
    count: usize,
)
    requires ballot { IsBallot ballot }
    requires least { 1 ≤ count }
    requires most { count ≤ 64 }
    requires slots { slot + count ≤ 4000000 }
{
    let run = commands(rt, bytes, count);
    let mut told = CommandList::new();
    let answer = acceptor.on_accept_run(ballot, slot, run.as_slice(), &mut told);
    is_answer(rt, answer, (ballot, slot), (bytes, count));
}

/// A fresh run is accepted whole.
#[test]
fn a_fresh_run(rt: HostRuntime) -> Result<(), Fail> {
    let mut acceptor = created_in_memory(&rt, rt.alloc())?;
    accepts_run(&rt, &mut acceptor, FIRST, 7, &FIVE, 5);
    Ok(())
}
