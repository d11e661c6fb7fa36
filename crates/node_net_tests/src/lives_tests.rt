//! What is said behind Hellos of the second version.

use crate::pair::{Side, node_0, said, say};
use crate::samples::{
    ASK_RECORD, BEAT_RECORD, HELLO_RECORD, assert_bytes, assert_number, assert_that, hello, life,
    own, second,
};
use node_links::Settings;
use node_wires::Line;
use peer_codes::{Hello, Life, Record, record_bytes};
use std::alloc::{AllocError, Global};
use std::process::Abort;
use std::test::Fail;

/// Behind the length and the kind of a record of lives of three nodes.
const LIVES_FRONT: [u8; 5] = [0, 0, 0, 49, 4];

/// A record of lives of three nodes, of such bytes each; zeros stand for none.
fn lives_record(alloc: Global, lives: [u8; 3]) -> Result<Vec<u8>, AllocError> {
    let mut text = Vec::from_slice(alloc, &LIVES_FRONT)?;
    for byte in lives {
        text.extend_from_slice(&[byte; 16])?;
    }
    Ok(text)
}

/// Somebody stands at a place and says this Hello.
fn greet(side: &mut Side, place: u8, hello: Hello, now: u64) -> Result<(), AllocError> {
    let record = record_bytes(&Record::Hello(hello));
    say(side, place, record.as_slice(), now)
}

/// He says these bytes.
fn come(side: &mut Side, place: u8, bytes: &[u8], now: u64) -> Result<(), AllocError> {
    side.wire.come(Line::Caller(place), bytes)?;
    side.turn(now);
    Ok(())
}

/// Whether a peer is there.
fn is_there(side: &Side, number: u8) -> bool {
    match side.peers.view(number) {
        Some(view) => view.is_open,
        None => false,
    }
}

/// Node 0, which keeps this life of node 2.
fn keeper(alloc: Global, kept: Option<Life>) -> Result<Side, AllocError> {
    Side::of(alloc, own(0, 9, None), &[None, None, kept], 0)
}

/// What node 0 says first to node 1 in the second version, where it keeps a life of node 2: its Hello, a beat, and the lives of
/// all three, of which that of node 1 is the one that it said.
fn greeting(alloc: Global) -> Result<Vec<u8>, AllocError> {
    let record = record_bytes(&Record::Hello(second(hello(0, 1))));
    let mut all = Vec::from_slice(alloc, record.as_slice())?;
    all.extend_from_slice(&BEAT_RECORD)?;
    let lives = lives_record(alloc, [1, 2, 33])?;
    all.extend_from_slice(lives.as_slice())?;
    Ok(all)
}

/// A Hello of the second version is answered in the second, and behind it lives are told.
#[test]
fn lives_are_told_at_opening(rt: HostRuntime) -> Result<(), Fail> {
    let mut side = keeper(rt.alloc(), Some(life(33)))?;
    greet(&mut side, 0, second(hello(1, 0)), 1_000)?;
    let all = greeting(rt.alloc())?;
    assert_bytes(&rt, side.wire.written(Line::Caller(0)), all.as_slice());
    Ok(())
}

/// Nodes 1 and 2 are there; node 1 by a connection of this kind.
fn both(alloc: Global, is_second: bool) -> Result<Side, AllocError> {
    let mut side = node_0(alloc)?;
    let first = hello(1, 0);
    let said = if is_second { second(first) } else { first };
    greet(&mut side, 0, said, 1_000)?;
    greet(&mut side, 1, second(hello(2, 0)), 2_000)?;
    Ok(side)
}

/// When a life is newly kept, who speaks the second version is told once more (a record of 53 bytes), and who speaks the first is
/// told nothing.
#[test]
fn a_life_that_is_newly_kept_is_told(rt: HostRuntime) -> Result<(), Fail> {
    for (is_second, bytes) in [(true, 208), (false, 102)] {
        let side = both(rt.alloc(), is_second)?;
        assert_that(&rt, is_there(&side, 1) && is_there(&side, 2));
        assert_number(&rt, said(&side, 0), bytes);
    }
    Ok(())
}

/// Node 2 tells another life of node 1, whose connection ends: what came of it behind is told no more.
fn ends_the_replaced(rt: &impl Abort, alloc: Global, side: &mut Side) -> Result<(), AllocError> {
    let lives = lives_record(alloc, [0, 77, 3])?;
    side.wire.come(Line::Caller(0), &ASK_RECORD)?;
    come(side, 1, lives.as_slice(), 3_000)?;
    assert_that(rt, !is_there(side, 1));
    assert_that(rt, !side.wire.is_open(Line::Caller(0)));
    assert_that(rt, is_there(side, 2));
    assert_number(rt, side.seen.frames as u64, 0);
    assert_number(rt, side.seen.fault as u64, 127);
    assert_number(rt, side.seen.refused as u64, 1);
    Ok(())
}

/// While node 2 is there node 1 is refused, in either version, and once node 2 is gone it is taken.
fn refuses_until_the_teller_is_gone(rt: &impl Abort, side: &mut Side) -> Result<(), AllocError> {
    greet(side, 0, second(hello(1, 0)), 4_000)?;
    assert_that(rt, !is_there(side, 1));
    greet(side, 0, hello(1, 0), 5_000)?;
    assert_that(rt, !is_there(side, 1));
    side.wire.end(Line::Caller(1));
    side.turn(6_000);
    greet(side, 0, second(hello(1, 0)), 7_000)?;
    assert_that(rt, is_there(side, 1));
    Ok(())
}

/// Where two lives of a node are known it is let go, and refused by 127 as long as both are.
#[test]
fn a_replaced_store_is_told(rt: HostRuntime) -> Result<(), Fail> {
    for is_second in [true, false] {
        let mut side = both(rt.alloc(), is_second)?;
        ends_the_replaced(&rt, rt.alloc(), &mut side)?;
        refuses_until_the_teller_is_gone(&rt, &mut side)?;
    }
    Ok(())
}

/// Who tells another life of this node is let go by 127, and it is told.
#[test]
fn another_life_of_this_node_is_told(rt: HostRuntime) -> Result<(), Fail> {
    let alloc = rt.alloc();
    let mut side = both(alloc, true)?;
    let lives = lives_record(alloc, [44, 0, 3])?;
    come(&mut side, 1, lives.as_slice(), 3_000)?;
    assert_that(&rt, is_there(&side, 1));
    assert_that(&rt, !is_there(&side, 2));
    assert_number(&rt, side.seen.fault as u64, 127);
    Ok(())
}

/// What is passed on: the life of a node of which none is kept, as another told it.
#[test]
fn a_heard_life_is_passed_on(rt: HostRuntime) -> Result<(), Fail> {
    let alloc = rt.alloc();
    let mut side = node_0(alloc)?;
    greet(&mut side, 0, second(hello(1, 0)), 1_000)?;
    side.wire.take_written(Line::Caller(0));
    let told = lives_record(alloc, [1, 2, 66])?;
    come(&mut side, 0, told.as_slice(), 2_000)?;
    assert_bytes(&rt, side.wire.written(Line::Caller(0)), told.as_slice());
    Ok(())
}

/// Records behind Hellos of the second version, and the fault of each, or 0: of a kind that isn't known, lives of too few
/// bytes, settings, and settings of too few.
static FURTHER: [(&[u8], u64, u64); 4] = [
    (&[0, 0, 0, 3, 9, 1, 2], 0, 0),
    (&[0, 0, 0, 3, 4, 1, 2], 120, 0),
    (
        &[
            0, 0, 0, 21, 5, 0, 0, 39, 16, 0, 0, 0, 5, 0, 0, 0, 0, 1, 2, 3, 4, 5, 6, 7, 8,
        ],
        0,
        1,
    ),
    (&[0, 0, 0, 3, 5, 1, 2], 120, 0),
];

/// A frame is told behind what is passed over, and not behind a fault; behind Hellos of the first version each is 121.
#[test]
fn further_kinds_are_told_or_passed_over(rt: HostRuntime) -> Result<(), Fail> {
    for &(bytes, fault, settings) in &FURTHER {
        let mut side = node_0(rt.alloc())?;
        greet(&mut side, 0, second(hello(1, 0)), 1_000)?;
        side.wire.come(Line::Caller(0), bytes)?;
        come(&mut side, 0, &ASK_RECORD, 2_000)?;
        assert_number(&rt, side.seen.fault as u64, fault);
        assert_number(&rt, side.seen.settings as u64, settings);
        assert_number(&rt, side.seen.frames as u64, (fault == 0) as u64);
        let mut first = node_0(rt.alloc())?;
        say(&mut first, 0, &HELLO_RECORD, 1_000)?;
        come(&mut first, 0, bytes, 2_000)?;
        assert_number(&rt, first.seen.fault as u64, 121);
    }
    Ok(())
}

/// Settings are told once, behind the lives: a record of 25 bytes.
#[test]
fn settings_are_told_once(rt: HostRuntime) -> Result<(), Fail> {
    let mut side = node_0(rt.alloc())?;
    side.peers.set_settings(Settings {
        patience: 12_000,
        start: 0,
        away: 0,
        tokens: [7; 8],
    });
    greet(&mut side, 0, second(hello(1, 0)), 1_000)?;
    assert_number(&rt, said(&side, 0), 180);
    greet(&mut side, 1, second(hello(2, 0)), 2_000)?;
    assert_number(&rt, said(&side, 0), 233);
    Ok(())
}
