//! Which Prepares and Accepts of peers are told, in which order, and which are left out.

use crate::pair::{Side, node_0, say};
use crate::samples::{HELLO_RECORD, TOLD, assert_number, hello};
use node_links::OwnReport;
use node_peers::Notice;
use node_wires::Line;
use peer_codes::{Record, record_bytes};
use std::alloc::{AllocError, Global};
use std::process::Abort;
use std::test::Fail;

/// The record of an Accept of node `node` in this round at this slot; its last byte tells which it is.
fn accept(round: u8, node: u8, slot: u8, digit: u8) -> [u8; 33] {
    [
        0, 0, 0, 29, 2, 0, 0, 0, 24, 2, 4, 0, 0, 0, round, node, 0, 0, 0, slot, 1, 2, 0, 0, 0, 0,
        0, 0, 0, 0, 0, 0, digit,
    ]
}

/// The record of a Prepare of node `node` in this round at this slot, which is its last byte.
fn prepare(round: u8, node: u8, slot: u8) -> [u8; 20] {
    [
        0, 0, 0, 16, 2, 0, 0, 0, 11, 2, 1, 0, 0, 0, round, node, 0, 0, 0, slot,
    ]
}

/// The record of a beat of this number, of a node that has applied so many commands.
fn beat(number: u8, front: u8) -> [u8; 20] {
    [
        0, 0, 0, 16, 3, 0, 0, 0, number, 0, 0, 0, 0, 0, 0, 0, front, 0, 0, 0,
    ]
}

/// The digits so far, and the last byte of a frame behind them.
fn and_digit(digits: u64, bytes: &[u8]) -> u64 {
    let last = bytes.last().copied().unwrap_or(0);
    digits.saturating_mul(10).saturating_add(last as u64)
}

/// The last bytes of the frames that are told of what came, as digits, in order.
fn heard(side: &mut Side, now: u64) -> u64 {
    side.hear(now);
    let mut digits = 0;
    for _ in 0..64 {
        match side.peers.next() {
            Some(Notice::Frame { from: _, frame }) => digits = and_digit(digits, frame.as_slice()),
            Some(_) => (),
            None => break,
        }
    }
    digits
}

/// The last byte of the frame that is told then of those that were set aside; 0 where none is.
fn late(side: &mut Side, now: u64) -> u64 {
    match side.peers.next_aside(now) {
        Some(Notice::Frame { from: _, frame }) => and_digit(0, frame.as_slice()),
        _ => 0,
    }
}

/// Node 0's front is this.
fn stand(side: &mut Side, front: u32, now: u64) {
    side.peers.tell(OwnReport { front, ..TOLD }, now);
}

/// Node 1 and node 2 are there, and node 0's front is this.
fn begin(side: &mut Side, front: u32) -> Result<(), AllocError> {
    say(side, 0, &HELLO_RECORD, 1_000)?;
    let second = record_bytes(&Record::Hello(hello(2, 0)));
    say(side, 1, second.as_slice(), 2_000)?;
    stand(side, front, 3_000);
    Ok(())
}

/// This comes of node 1, or of node 2.
fn come(side: &mut Side, node: u8, record: &[u8]) -> Result<(), AllocError> {
    side.wire.come(Line::Caller(node.saturating_sub(1)), record)
}

/// Of three that came the newest alone is told, and told again where it comes again; one of an earlier slot isn't.
fn newest_alone(rt: &impl Abort, side: &mut Side) -> Result<(), AllocError> {
    begin(side, 3)?;
    for slot in 1..4 {
        come(side, 1, &accept(1, 1, slot, slot))?;
    }
    assert_number(rt, heard(side, 4_000), 3);
    come(side, 1, &accept(1, 1, 3, 4))?;
    assert_number(rt, heard(side, 5_000), 4);
    come(side, 1, &accept(1, 1, 2, 5))?;
    come(side, 1, &prepare(1, 1, 1))?;
    assert_number(rt, heard(side, 6_000), 0);
    assert_number(rt, late(side, 900_000), 0);
    Ok(())
}

/// What counts is the ballot first, and one peer's isn't another's.
fn newest_of_each(rt: &impl Abort, side: &mut Side) -> Result<(), AllocError> {
    begin(side, 9)?;
    come(side, 1, &accept(2, 1, 3, 1))?;
    come(side, 2, &accept(1, 2, 2, 2))?;
    come(side, 1, &prepare(3, 1, 3))?;
    come(side, 1, &accept(3, 1, 3, 4))?;
    assert_number(rt, heard(side, 4_000), 42);
    Ok(())
}

#[test]
fn the_newest_of_each_peer_counts(rt: HostRuntime) -> Result<(), Fail> {
    let alloc = rt.alloc();
    newest_alone(&rt, &mut node_0(alloc)?)?;
    Ok(newest_of_each(&rt, &mut node_0(alloc)?)?)
}

/// One at the front or below it is told at once, whatever is known here.
fn at_the_front(rt: &impl Abort, side: &mut Side) -> Result<(), AllocError> {
    begin(side, 9)?;
    come(side, 1, &accept(1, 1, 9, 1))?;
    assert_number(rt, heard(side, 4_000), 1);
    come(side, 2, &accept(1, 2, 3, 2))?;
    assert_number(rt, heard(side, 5_000), 2);
    Ok(())
}

/// One above the front waits for 200 ms in which the front stands; the next beats are due later here.
fn while_the_front_moves(rt: &impl Abort, side: &mut Side) -> Result<(), AllocError> {
    begin(side, 1)?;
    come(side, 1, &accept(1, 1, 3, 3))?;
    assert_number(rt, heard(side, 4_000), 0);
    assert_number(rt, late(side, 4_000), 0);
    stand(side, 1, 180_000);
    assert_number(rt, side.peers.wait(180_000), 23_000);
    assert_number(rt, late(side, 202_999), 0);
    stand(side, 2, 202_999);
    assert_number(rt, late(side, 402_998), 0);
    assert_number(rt, late(side, 402_999), 3);
    assert_number(rt, late(side, 402_999), 0);
    Ok(())
}

/// And once the front has come to its slot it is told.
fn once_the_front_is_there(rt: &impl Abort, side: &mut Side) -> Result<(), AllocError> {
    begin(side, 2)?;
    come(side, 1, &accept(1, 1, 4, 4))?;
    assert_number(rt, heard(side, 4_000), 0);
    stand(side, 3, 5_000);
    assert_number(rt, late(side, 5_000), 0);
    stand(side, 4, 6_000);
    assert_number(rt, side.peers.wait(6_000), 0);
    assert_number(rt, late(side, 6_000), 4);
    Ok(())
}

/// One that is set aside gives way to a newer one, and is left out once its peer has told a front behind its slot.
fn left_out(rt: &impl Abort, side: &mut Side) -> Result<(), AllocError> {
    begin(side, 1)?;
    come(side, 1, &accept(1, 1, 5, 5))?;
    assert_number(rt, heard(side, 4_000), 0);
    come(side, 1, &accept(1, 1, 6, 6))?;
    come(side, 1, &beat(1, 6))?;
    assert_number(rt, heard(side, 5_000), 0);
    assert_number(rt, late(side, 900_000), 6);
    come(side, 1, &accept(1, 1, 7, 7))?;
    come(side, 1, &beat(2, 8))?;
    assert_number(rt, heard(side, 910_000), 0);
    assert_number(rt, late(side, 990_000), 0);
    // Nothing is to be waited for but the next beat.
    stand(side, 1, 990_000);
    assert_number(rt, side.peers.wait(990_000), 50_000);
    Ok(())
}

#[test]
fn an_accept_waits_for_the_front(rt: HostRuntime) -> Result<(), Fail> {
    let alloc = rt.alloc();
    at_the_front(&rt, &mut node_0(alloc)?)?;
    while_the_front_moves(&rt, &mut node_0(alloc)?)?;
    once_the_front_is_there(&rt, &mut node_0(alloc)?)?;
    Ok(left_out(&rt, &mut node_0(alloc)?)?)
}

/// One alone is told at once; of two the greater ballot is told first, behind all that waits, and an Accept behind them.
fn by_falling_ballots(rt: &impl Abort, side: &mut Side) -> Result<(), AllocError> {
    begin(side, 0)?;
    come(side, 1, &prepare(2, 1, 1))?;
    assert_number(rt, heard(side, 4_000), 1);
    come(side, 1, &prepare(3, 1, 3))?;
    come(side, 2, &prepare(3, 2, 4))?;
    side.hear(5_000);
    assert_number(rt, late(side, 5_000), 0);
    assert_number(rt, heard(side, 5_000), 0);
    assert_number(rt, late(side, 5_000), 4);
    assert_number(rt, late(side, 5_000), 3);
    come(side, 1, &accept(9, 1, 5, 5))?;
    come(side, 2, &prepare(4, 2, 6))?;
    assert_number(rt, heard(side, 6_000), 0);
    assert_number(rt, late(side, 900_000), 6);
    assert_number(rt, late(side, 900_000), 5);
    Ok(())
}

#[test]
fn prepares_that_wait_come_by_falling_ballots(rt: HostRuntime) -> Result<(), Fail> {
    Ok(by_falling_ballots(&rt, &mut node_0(rt.alloc())?)?)
}
