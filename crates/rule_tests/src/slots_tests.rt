//! Tests of which commands are known at which slots; those of a match's table stand in `slot_log_tests`.

use crate::asserting::{holds, prints, same};
use crate::slot_log_tests::act;
use betting::{ActFault, Action};
use card_core::DealFault;
use slot_log::{Command, SlotFault, SlotLog};
use std::alloc::AllocError;
use std::process::Abort;
use std::test::Fail;

/// Makes a command known at a slot, in room that is made for it or not.
fn put(
    log: &mut SlotLog,
    slot: u32,
    command: Command,
    in_room: bool,
) -> Result<Result<(), SlotFault>, AllocError> {
    if in_room {
        log.reserve(1)?;
        Ok(log.put_reserved(slot, command))
    } else {
        log.put(slot, command)
    }
}

/// Sees whether the call whose index is the slot's number is known at the slot, or nothing.
fn knows(rt: &impl Abort, log: &SlotLog, slot: u16, is_known: bool) {
    let call = act(0, slot, Action::Call);
    let wanted = if is_known { Some(&call) } else { None };
    holds!(rt; log.get(u32::from(slot)) == wanted);
}

/// Sees the front, and at which of the slots from 0 to 5 their calls are known.
fn has_known(rt: &impl Abort, log: &SlotLog, front: u32, known: &[bool; 6]) {
    holds!(rt; log.front() == front);
    holds!(rt; log.commands().len() as u32 == front);
    for slot in 0..6u16 {
        knows(rt, log, slot, known[usize::from(slot)]);
    }
}

/// A slot, the index and the action of the act that is put there, what is answered, and then the front and at which of the
/// slots from 0 to 5 their calls are known.
type Put = (u32, u16, Action, Result<(), SlotFault>, u32, [bool; 6]);

/// Puts acts into a log.
fn puts(rt: &impl Abort, log: &mut SlotLog, acts: &[Put], in_room: bool) -> Result<(), AllocError> {
    for (slot, index, action, answer, front, known) in acts {
        same!(rt; put(log, *slot, act(0, *index, *action), in_room)?, *answer);
        has_known(rt, log, *front, known);
    }
    Ok(())
}

/// Acts that are known behind the front.
static BEHIND: [Put; 2] = [
    (
        3,
        3,
        Action::Call,
        Ok(()),
        0,
        [false, false, false, true, false, false],
    ),
    (
        1,
        1,
        Action::Call,
        Ok(()),
        0,
        [false, true, false, true, false, false],
    ),
];

/// Acts at the front then.
static AT_FRONT: [Put; 2] = [
    (
        0,
        0,
        Action::Call,
        Ok(()),
        2,
        [true, true, false, true, false, false],
    ),
    (
        2,
        2,
        Action::Call,
        Ok(()),
        4,
        [true, true, true, true, false, false],
    ),
];

#[test]
fn slots_are_known_one_by_one(rt: HostRuntime) -> Result<(), Fail> {
    let mut log = SlotLog::new(rt.alloc());
    has_known(&rt, &log, 0, &[false; 6]);
    puts(&rt, &mut log, &BEHIND, false)?;
    same!(&rt; log.run_with(0), 2);
    same!(&rt; log.run_with(2), 0);
    puts(&rt, &mut log, &AT_FRONT, true)?;
    Ok(())
}

/// Those of the crates below, too.
#[test]
fn faults_print_their_number_and_name(rt: HostRuntime) -> Result<(), Fail> {
    same!(&rt; DealFault::WrongCount.code(), 1);
    prints(&rt, rt.alloc(), &DealFault::WrongCount, "1 WrongCount")?;
    same!(&rt; ActFault::Finished.code(), 20);
    same!(&rt; SlotFault::Conflict.code(), 30);
    prints(&rt, rt.alloc(), &SlotFault::Conflict, "30 Conflict")?;
    Ok(())
}
