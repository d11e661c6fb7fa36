//! What is owed to a node, and what is said to a peer again.

use crate::pair::{Side, node_0, said, say, take_turns};
use crate::samples::{
    ACCEPT, ACCEPTED, ASK, CHOSEN, FORWARD, HELLO_RECORD, LOW_BEAT_RECORD, TOLD, assert_number,
    assert_that, frame,
};
use node_links::OwnReport;
use node_wires::Line;
use peer_codes::{Record, record_bytes};
use std::alloc::{AllocError, Global};
use std::process::Abort;
use std::test::Fail;

/// Both are connected, and node 1 asks node 0 something.
fn ask(alloc: Global, low: &mut Side, high: &mut Side) -> Result<(), AllocError> {
    take_turns(alloc, low, high, 0, 6)?;
    high.peers.send(0, &ACCEPT, 7_000);
    take_turns(alloc, low, high, 7_000, 3)
}

/// Their connection ends, and another one opens.
fn connect_again(alloc: Global, low: &mut Side, high: &mut Side) -> Result<(), AllocError> {
    high.wire.end(Line::Peer(0));
    low.wire.end(Line::Caller(0));
    high.turn(60_000);
    low.turn(60_000);
    // The dial above is the one that is taken in.
    low.wire.call();
    take_turns(alloc, low, high, 61_000, 6)
}

/// Node 0 answers.
fn answer(alloc: Global, low: &mut Side, high: &mut Side) -> Result<(), AllocError> {
    low.peers.send(1, &ACCEPTED, 70_000);
    take_turns(alloc, low, high, 70_000, 3)
}

/// What was asked before a connection ended is unanswered over the next one, until it is answered.
fn owes_what_was_lost(
    rt: &impl Abort,
    alloc: Global,
    low: &mut Side,
    high: &mut Side,
) -> Result<(), AllocError> {
    ask(alloc, low, high)?;
    assert_that(rt, !is_owed(high));
    connect_again(alloc, low, high)?;
    assert_that(rt, is_owed(high));
    answer(alloc, low, high)?;
    assert_that(rt, !is_owed(high));
    Ok(())
}

#[test]
fn what_was_lost_is_owed(rt: HostRuntime) -> Result<(), Fail> {
    let alloc = rt.alloc();
    let mut low = node_0(alloc)?;
    let mut high = Side::new(alloc, 1, 9, &[], 0)?;
    Ok(owes_what_was_lost(&rt, alloc, &mut low, &mut high)?)
}

/// Whether peer 0 owes an answer that was lost.
fn is_owed(side: &Side) -> bool {
    match side.peers.view(0) {
        Some(view) => view.unanswered.is_some(),
        None => false,
    }
}

/// Somebody who is behind says so, once an Accepted was sent to him.
fn fall_behind(side: &mut Side) -> Result<(), AllocError> {
    say(side, 0, &HELLO_RECORD, 1_000)?;
    side.peers.send(1, &ACCEPTED, 2_000);
    side.wire.come(Line::Caller(0), &LOW_BEAT_RECORD)?;
    side.turn(2_000);
    Ok(())
}

/// Moments, and how many bytes are said in a turn then.
fn says(rt: &impl Abort, side: &mut Side, rows: &[(u64, u64)]) {
    for (now, bytes) in rows {
        assert_number(rt, said_since(side, *now), *bytes);
    }
}

/// A beat has 20 bytes, the Accepted's record 33.
static AGAIN: [(u64, u64); 4] = [(50_999, 0), (101_999, 20), (102_000, 33), (102_001, 0)];

/// Behind the end of a block: a Chosen's record of 27, and the Accepted's.
static BEHIND_A_BLOCK: [(u64, u64); 2] = [(103_000, 60), (103_001, 0)];

/// It goes again.
fn goes_again(rt: &impl Abort, side: &mut Side) -> Result<(), AllocError> {
    fall_behind(side)?;
    says(rt, side, &AGAIN);
    side.peers.send(1, &CHOSEN, 103_000);
    says(rt, side, &BEHIND_A_BLOCK);
    Ok(())
}

/// While a peer tells a lower front the last Accepted goes to it again each 100 ms, and at once behind the end of a block that
/// it is told; beats go each 50 ms.
#[test]
fn the_last_accepted_goes_again_while_the_peer_is_behind(rt: HostRuntime) -> Result<(), Fail> {
    let mut side = node_0(rt.alloc())?;
    Ok(goes_again(&rt, &mut side)?)
}

/// A peer is there, and an act goes on to it.
fn hand_on(side: &mut Side) -> Result<(), AllocError> {
    say(side, 0, &HELLO_RECORD, 1_000)?;
    side.turn(2_000);
    side.peers.send(1, &FORWARD, 3_000);
    Ok(())
}

/// Its record has 23 bytes.
static FORWARDED: [(u64, u64); 2] = [(3_000, 23), (22_999, 0)];

static FORWARDED_AGAIN: [(u64, u64); 2] = [(23_000, 23), (42_999, 0)];

/// It goes again, until the front moves.
fn goes_until_the_front_moves(rt: &impl Abort, side: &mut Side) -> Result<(), AllocError> {
    hand_on(side)?;
    says(rt, side, &FORWARDED);
    assert_number(rt, side.peers.wait(22_999), 1);
    says(rt, side, &FORWARDED_AGAIN);
    side.peers.tell(OwnReport { front: 8, ..TOLD }, 42_999);
    side.peers.tell(TOLD, 42_999);
    assert_number(rt, said_since(side, 43_000), 0);
    Ok(())
}

/// An act that went on to a peer goes again each 20 ms, until the front moves.
#[test]
fn an_act_goes_again_while_the_front_stands(rt: HostRuntime) -> Result<(), Fail> {
    let mut side = node_0(rt.alloc())?;
    Ok(goes_until_the_front_moves(&rt, &mut side)?)
}

/// A beat of a node that has applied 10 commands and got the first one of this node: the way to it and back took 150 ms, since
/// that was told 1 ms behind the start.
const LATE_BEAT_RECORD: [u8; 20] = [0, 0, 0, 16, 3, 0, 0, 0, 1, 0, 0, 0, 1, 0, 0, 0, 10, 0, 0, 0];

/// Somebody who is behind is there over a slow way, an Accepted was sent to him, and an act goes on to him.
fn stand_far(side: &mut Side) -> Result<(), AllocError> {
    say(side, 0, &HELLO_RECORD, 1_000)?;
    side.wire.come(Line::Caller(0), &LATE_BEAT_RECORD)?;
    side.turn(151_000);
    side.peers.send(1, &ACCEPTED, 160_000);
    side.peers.send(1, &FORWARD, 160_000);
    side.turn(160_000);
    Ok(())
}

/// Beats have 20 bytes, an Accepted's record 33 and a Forward's 23: both go again once the way there and back has passed. A beat is
/// told before it.
static OVER_A_SLOW_WAY: [(u64, u64); 4] = [
    (201_000, 20),
    (251_000, 20),
    (309_999, 20),
    (310_000, 56),
];

/// They go again as late.
fn go_again_behind_the_way(rt: &impl Abort, side: &mut Side) -> Result<(), AllocError> {
    stand_far(side)?;
    assert_number(rt, side.peers.wait(200_000), 1_000);
    says(rt, side, &OVER_A_SLOW_WAY);
    Ok(())
}

/// Neither goes again sooner than an answer can be here.
#[test]
fn nothing_goes_again_before_an_answer_can_be_here(rt: HostRuntime) -> Result<(), Fail> {
    let mut side = node_0(rt.alloc())?;
    Ok(go_again_behind_the_way(&rt, &mut side)?)
}

/// Frames, and whether each costs a node no sync.
static COSTS: [(&[u8], bool); 5] = [
    (&ASK, true),
    (&ACCEPTED, true),
    (&CHOSEN, true),
    (&ACCEPT, false),
    (&FORWARD, false),
];

/// What waits next is this frame, which costs syncs or none.
fn costs(rt: &impl Abort, alloc: Global, bytes: &[u8], none: bool) -> Result<(), AllocError> {
    let mut side = node_0(alloc)?;
    assert_that(rt, side.peers.costs_no_sync());
    say(&mut side, 0, &HELLO_RECORD, 1_000)?;
    let record = record_bytes(&Record::Frame(frame(rt, bytes)));
    side.wire.come(Line::Caller(0), record.as_slice())?;
    side.hear(2_000);
    assert_that(rt, side.peers.costs_no_sync() == none);
    Ok(())
}

/// It is known of what waits next whether it costs syncs.
#[test]
fn what_costs_no_sync_is_known(rt: HostRuntime) -> Result<(), Fail> {
    for &(bytes, none) in &COSTS {
        costs(&rt, rt.alloc(), bytes, none)?;
    }
    Ok(())
}

/// How many bytes are said to who stands at place 0 in a turn at this moment.
fn said_since(side: &mut Side, now: u64) -> u64 {
    side.wire.take_written(Line::Caller(0));
    side.turn(now);
    said(side, 0)
}
