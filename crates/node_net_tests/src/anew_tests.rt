//! A silent peer is dialled anew beside its connection; and callers of whom nothing is told but their count.

use crate::pair::{SILENCE, Side, exchange_over, node_0, take_turns};
use crate::samples::{
    BEAT_RECORD, HELLO_RECORD, LOW_BEAT_RECORD, assert_number, assert_that, hello, own, second,
};
use node_links::limits::{CONNECT, NODES};
use node_peers::Lag;
use node_wires::Line;
use peer_codes::{Record, record_bytes};
use std::alloc::{AllocError, Global};
use std::process::Abort;
use std::test::Fail;

/// The lines of node 1 to node 0.
const FIRST: Line = Line::Peer(0);

const SECOND: Line = Line::Peer(NODES as u8);

/// Node 1 was connected with node 0, of which nothing comes any more: the moment at which it counts as absent.
const SILENT: u64 = SILENCE + 10_000;

/// Node 1, connected with node 0, which told that it has applied 10 commands.
fn connected(alloc: Global) -> Result<Side, AllocError> {
    let mut low = node_0(alloc)?;
    let mut high = Side::new(alloc, 1, 9, &[], 0)?;
    take_turns(alloc, &mut low, &mut high, 0, 6)?;
    high.wire.come(FIRST, &LOW_BEAT_RECORD)?;
    high.turn(9_000);
    high.forget();
    Ok(high)
}

/// Which lines of node 1 to node 0 have a connection, and how often node 0 was told to be there and to be gone.
fn has(rt: &impl Abort, side: &Side, first: bool, second: bool, joined: u64, gone: u64) {
    assert_that(rt, side.wire.is_open(FIRST) == first);
    assert_that(rt, side.wire.is_open(SECOND) == second);
    assert_number(rt, side.seen.joined as u64, joined);
    assert_number(rt, side.seen.gone as u64, gone);
}

/// It is dialled anew once it counts as absent, and over the new connection it is there once it has told a beat.
fn goes_over(rt: &impl Abort, side: &mut Side) -> Result<(), AllocError> {
    side.turn(SILENT - 2_000);
    has(rt, side, true, false, 0, 0);
    side.turn(SILENT);
    has(rt, side, true, true, 0, 0);
    let answer = record_bytes(&Record::Hello(second(hello(0, 1))));
    side.wire.come(SECOND, answer.as_slice())?;
    side.turn(SILENT + 1_000);
    has(rt, side, true, true, 0, 0);
    side.wire.come(SECOND, &LOW_BEAT_RECORD)?;
    side.turn(SILENT + 2_000);
    has(rt, side, false, true, 1, 1);
    // And back, where that falls silent.
    side.turn(2 * SILENT + 2_000);
    has(rt, side, true, true, 1, 1);
    Ok(())
}

#[test]
fn a_silent_peer_is_dialled_beside(rt: HostRuntime) -> Result<(), Fail> {
    let mut high = connected(rt.alloc())?;
    Ok(goes_over(&rt, &mut high)?)
}

/// Two nodes, with a key or without, which met, and of which nothing comes to each other any more until the second dial.
fn met(alloc: Global, key: Option<u8>) -> Result<(Side, Side), AllocError> {
    let mut low = Side::of(alloc, own(0, 9, key), &[], 0)?;
    let mut high = Side::of(alloc, own(1, 9, key), &[], 0)?;
    take_turns(alloc, &mut low, &mut high, 0, 8)?;
    low.forget();
    high.forget();
    high.turn(SILENT);
    low.wire.call();
    Ok((low, high))
}

/// Over the second connection they meet anew, and the first is closed by both.
fn meet_anew(rt: &impl Abort, alloc: Global, key: Option<u8>) -> Result<(), AllocError> {
    let (mut low, mut high) = met(alloc, key)?;
    for turn in 1..8u64 {
        let now = SILENT.saturating_add(turn.saturating_mul(1_000));
        low.turn(now);
        high.turn(now);
        exchange_over(alloc, &mut low, &mut high, Line::Caller(1), SECOND)?;
    }
    has(rt, &high, false, true, 1, 1);
    assert_that(
        rt,
        !low.wire.is_open(Line::Caller(0)) && low.wire.is_open(Line::Caller(1)),
    );
    assert_number(rt, low.seen.joined as u64, 1);
    assert_number(rt, low.seen.gone as u64, 1);
    assert_number(rt, low.seen.refused as u64, 0);
    assert_number(rt, high.seen.refused as u64, 0);
    Ok(())
}

#[test]
fn both_go_over_to_the_new_connection(rt: HostRuntime) -> Result<(), Fail> {
    meet_anew(&rt, rt.alloc(), None)?;
    meet_anew(&rt, rt.alloc(), Some(7))?;
    Ok(())
}

/// Where it is heard again over the old connection the new one is ended, and it stays there all the while.
fn stays(rt: &impl Abort, side: &mut Side) -> Result<(), AllocError> {
    side.turn(SILENT);
    has(rt, side, true, true, 0, 0);
    side.wire.come(FIRST, &LOW_BEAT_RECORD)?;
    side.turn(SILENT + 1_000);
    has(rt, side, true, false, 0, 0);
    side.turn(SILENT + 500_000);
    has(rt, side, true, false, 0, 0);
    side.turn(2 * SILENT + 1_000);
    has(rt, side, true, true, 0, 0);
    Ok(())
}

#[test]
fn who_is_heard_again_stays(rt: HostRuntime) -> Result<(), Fail> {
    let mut high = connected(rt.alloc())?;
    Ok(stays(&rt, &mut high)?)
}

/// A new connection that is answered and then closed was refused: the old one stays, and half a second later it is dialled again.
fn is_refused(rt: &impl Abort, side: &mut Side) -> Result<(), AllocError> {
    side.turn(SILENT);
    let answer = record_bytes(&Record::Hello(second(hello(0, 1))));
    side.wire.come(SECOND, answer.as_slice())?;
    side.wire.end(SECOND);
    side.turn(SILENT + 1_000);
    has(rt, side, true, false, 0, 0);
    side.turn(SILENT + CONNECT);
    has(rt, side, true, false, 0, 0);
    side.turn(SILENT + CONNECT + 1_000);
    has(rt, side, true, true, 0, 0);
    assert_number(rt, side.seen.refused as u64, 0);
    Ok(())
}

#[test]
fn who_refuses_the_new_connection_is_dialled_again(rt: HostRuntime) -> Result<(), Fail> {
    let mut high = connected(rt.alloc())?;
    Ok(is_refused(&rt, &mut high)?)
}

/// The old connection ends while the new one is being made: that is then the one.
fn is_left(rt: &impl Abort, side: &mut Side) -> Result<(), AllocError> {
    side.turn(SILENT);
    side.wire.end(FIRST);
    side.turn(SILENT + 1_000);
    has(rt, side, false, true, 0, 1);
    let answer = record_bytes(&Record::Hello(second(hello(0, 1))));
    side.wire.come(SECOND, answer.as_slice())?;
    side.turn(SILENT + 2_000);
    has(rt, side, false, true, 1, 1);
    Ok(())
}

#[test]
fn the_new_connection_outlives_the_old_one(rt: HostRuntime) -> Result<(), Fail> {
    let mut high = connected(rt.alloc())?;
    Ok(is_left(&rt, &mut high)?)
}

/// Of a peer whose own silence ended just now no second connection is told to be refused.
fn is_not_told(rt: &impl Abort, side: &mut Side) -> Result<(), AllocError> {
    side.wire.call();
    side.turn(1_000);
    side.wire.come(Line::Caller(0), &HELLO_RECORD)?;
    side.turn(1_000);
    side.wire.come(Line::Caller(0), &BEAT_RECORD)?;
    side.wire.call();
    side.turn(SILENCE);
    side.wire.come(Line::Caller(1), &HELLO_RECORD)?;
    side.turn(SILENCE);
    assert_that(rt, !side.wire.is_open(Line::Caller(1)));
    assert_number(rt, side.seen.refused as u64, 0);
    Ok(())
}

#[test]
fn who_may_have_dialled_by_right_is_not_told(rt: HostRuntime) -> Result<(), Fail> {
    let mut side = node_0(rt.alloc())?;
    Ok(is_not_told(&rt, &mut side)?)
}

/// Who leaves without a word is counted, and who is let go of; not who is told to be refused, nor a peer that was there. All of them count
/// as callers.
fn counts(rt: &impl Abort, side: &mut Side) -> Result<(), AllocError> {
    side.wire.call();
    side.turn(1_000);
    side.wire.end(Line::Caller(0));
    side.turn(2_000);
    assert_number(rt, side.peers.unheard(), 1);
    assert_number(rt, side.peers.callers(), 1);
    side.peers.speaks_its_own();
    side.wire.call();
    side.turn(3_000);
    side.turn(2_003_000);
    assert_number(rt, side.peers.unheard(), 2);
    side.wire.call();
    side.turn(2_004_000);
    side.wire.come(Line::Caller(0), &[0, 0, 0, 1, 9])?;
    side.turn(2_005_000);
    side.wire.call();
    side.turn(2_006_000);
    side.wire.come(Line::Caller(0), &HELLO_RECORD)?;
    side.turn(2_007_000);
    side.wire.end(Line::Caller(0));
    side.turn(2_008_000);
    assert_number(rt, side.seen.joined as u64, 1);
    assert_number(rt, side.peers.unheard(), 2);
    assert_number(rt, side.peers.callers(), 4);
    Ok(())
}

#[test]
fn who_says_no_hello_is_counted(rt: HostRuntime) -> Result<(), Fail> {
    let mut side = node_0(rt.alloc())?;
    Ok(counts(&rt, &mut side)?)
}

/// Two dialled: neither is taken in as what came is heard; then one at a time is, and no third.
fn takes_one_at_a_time(rt: &impl Abort, side: &mut Side) {
    side.wire.call();
    side.wire.call();
    side.peers.hear(&mut side.wire, 1_000);
    assert_number(rt, side.peers.callers(), 0);
    for count in 1..3 {
        assert_that(rt, side.peers.take_caller(&mut side.wire, 1_000));
        assert_number(rt, side.peers.callers(), count);
    }
    assert_that(rt, !side.peers.take_caller(&mut side.wire, 1_000));
    assert_number(rt, side.peers.callers(), 2);
}

#[test]
fn callers_are_taken_in_one_by_one(rt: HostRuntime) -> Result<(), Fail> {
    let mut side = node_0(rt.alloc())?;
    takes_one_at_a_time(&rt, &mut side);
    Ok(())
}

/// It is 27 commands behind, and nothing was measured of it; others aren't there.
fn lags(rt: &impl Abort, side: &mut Side) -> Result<(), AllocError> {
    assert_that(
        rt,
        side.peers.lag(0, 9_000)
            == Some(Lag {
                behind: 27,
                slowest: 0,
            }),
    );
    assert_that(rt, side.peers.lag(2, 9_000).is_none());
    assert_that(rt, side.peers.lag(9, 9_000).is_none());
    Ok(())
}

#[test]
fn who_is_behind_is_seen(rt: HostRuntime) -> Result<(), Fail> {
    let mut high = connected(rt.alloc())?;
    Ok(lags(&rt, &mut high)?)
}
