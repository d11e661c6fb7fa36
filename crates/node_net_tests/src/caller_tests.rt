//! Those who dial node 0: who is taken, who is refused and how that is told, and who takes another's place.

use crate::pair::{SILENCE, Side, node_0, said, say, take_turns};
use crate::samples::{
    ASK, ASK_RECORD, BEAT_RECORD, HELLO_RECORD, assert_bytes, assert_number, assert_that,
    coded_hello, hello, own,
};
use node_links::Own;
use node_wires::Line;
use peer_codes::{Record, record_bytes};
use std::alloc::{AllocError, Global};
use std::process::Abort;
use std::test::Fail;

/// Whether peer 1 is there.
fn has_peer(side: &Side) -> bool {
    match side.peers.view(1) {
        Some(view) => view.is_open,
        None => false,
    }
}

/// How many peers were told to be there, and how many lives with them.
fn has_joined(rt: &impl Abort, side: &Side, joined: u64, lives: u64) {
    assert_number(rt, side.seen.joined as u64, joined);
    assert_number(rt, side.seen.lives as u64, lives);
}

/// A Hello is answered by one of 82 bytes, and a beat of 20; the life is told the first time alone.
fn answers_and_tells_once(rt: &impl Abort, side: &mut Side) -> Result<(), AllocError> {
    say(side, 0, &HELLO_RECORD, 1_000)?;
    assert_that(rt, has_peer(side));
    has_joined(rt, side, 1, 1);
    assert_number(rt, said(side, 0), 102);
    side.wire.end(Line::Caller(0));
    side.turn(2_000);
    assert_that(rt, !has_peer(side));
    say(side, 0, &HELLO_RECORD, 3_000)?;
    has_joined(rt, side, 2, 1);
    Ok(())
}

#[test]
fn a_hello_is_answered_and_its_life_told_once(rt: HostRuntime) -> Result<(), Fail> {
    let mut side = node_0(rt.alloc())?;
    Ok(answers_and_tells_once(&rt, &mut side)?)
}

/// The fault that was told last, and of how many peers and strangers faults were told.
fn was_told(rt: &impl Abort, side: &Side, fault: u64, refused: u64, strangers: u64) {
    assert_number(rt, side.seen.fault as u64, fault);
    assert_number(rt, side.seen.refused as u64, refused);
    assert_number(rt, side.seen.strangers as u64, strangers);
}

/// The peer was there, and is gone by its fault.
fn is_gone(rt: &impl Abort, side: &Side) {
    assert_that(rt, !has_peer(side));
    assert_number(rt, side.seen.joined as u64, 1);
    assert_number(rt, side.seen.gone as u64, 1);
    was_told(rt, side, 120, 1, 0);
    assert_that(rt, !side.wire.is_open(Line::Caller(0)));
}

/// A text behind another.
fn joined(alloc: Global, first: &[u8], second: &[u8]) -> Result<Vec<u8>, AllocError> {
    let mut both = Vec::from_slice(alloc, first)?;
    both.extend_from_slice(second)?;
    Ok(both)
}

/// A node to which this is said.
fn told(alloc: Global, first: &[u8], second: &[u8]) -> Result<Side, AllocError> {
    let both = joined(alloc, first, second)?;
    let mut side = node_0(alloc)?;
    say(&mut side, 0, both.as_slice(), 1_000)?;
    Ok(side)
}

/// A Hello and a record of length 0 in one piece: the peer was there, and is gone.
#[test]
fn a_peer_at_fault_is_gone(rt: HostRuntime) -> Result<(), Fail> {
    let side = told(rt.alloc(), &HELLO_RECORD, &[0, 0, 0, 0])?;
    is_gone(&rt, &side);
    Ok(())
}

/// One caller of each number is told at once, and one more of the first number after a second.
fn tells_strangers(rt: &impl Abort, side: &mut Side) -> Result<(), AllocError> {
    say(side, 0, &ASK_RECORD, 1_000)?;
    was_told(rt, side, 126, 0, 1);
    say(side, 0, &ASK_RECORD, 2_000)?;
    was_told(rt, side, 126, 0, 1);
    say(side, 0, &[0, 0, 0, 1, 9], 3_000)?;
    was_told(rt, side, 121, 0, 2);
    side.turn(1_000_999);
    was_told(rt, side, 121, 0, 2);
    side.turn(1_001_000);
    was_told(rt, side, 126, 0, 3);
    Ok(())
}

/// Callers who aren't known are counted, and those of each number are told once a second.
#[test]
fn strangers_are_told_once_a_second(rt: HostRuntime) -> Result<(), Fail> {
    let mut side = node_0(rt.alloc())?;
    Ok(tells_strangers(&rt, &mut side)?)
}

/// When the peer has been silent for too long.
const LATER: u64 = SILENCE + 2_000;

/// Where a second connection of a peer that was heard comes.
fn refuses_the_second(rt: &impl Abort, side: &mut Side) -> Result<(), AllocError> {
    say(side, 0, &HELLO_RECORD, 1_000)?;
    say(side, 1, &HELLO_RECORD, 2_000)?;
    assert_number(rt, side.seen.fault as u64, 128);
    assert_number(rt, side.seen.refused as u64, 1);
    assert_number(rt, said(side, 1), 82);
    assert_number(rt, side.seen.joined as u64, 1);
    Ok(())
}

/// Where one of a peer comes that was silent for too long.
fn takes_the_place(rt: &impl Abort, side: &mut Side) -> Result<(), AllocError> {
    say(side, 1, &HELLO_RECORD, LATER)?;
    assert_number(rt, side.seen.gone as u64, 1);
    assert_number(rt, side.seen.joined as u64, 2);
    assert_that(rt, !side.wire.is_open(Line::Caller(0)));
    Ok(())
}

/// What went by in a stop is no silence. The same fault of the same peer is told once in ten seconds.
fn refuses_behind_a_stop(rt: &impl Abort, side: &mut Side) -> Result<(), AllocError> {
    side.peers.forgive(SILENCE, LATER + SILENCE);
    say(side, 0, &HELLO_RECORD, LATER + SILENCE)?;
    assert_number(rt, said(side, 0), 82);
    assert_number(rt, side.seen.joined as u64, 2);
    assert_number(rt, side.seen.refused as u64, 1);
    stops_shortly(side, 10_002_000);
    say(side, 0, &HELLO_RECORD, 10_002_000)?;
    assert_number(rt, side.seen.refused as u64, 2);
    Ok(())
}

/// All that went by until this moment went by in short stops.
fn stops_shortly(side: &mut Side, now: u64) {
    for _ in 0..now / 300_000 + 1 {
        side.peers.forgive(300_000, now);
    }
}

/// All of these, one behind the other.
fn refuses_or_takes(rt: &impl Abort, side: &mut Side) -> Result<(), AllocError> {
    refuses_the_second(rt, side)?;
    takes_the_place(rt, side)?;
    refuses_behind_a_stop(rt, side)
}

/// A second connection of a peer that was heard is refused by 128 and answered; one of a peer that was silent for too long
/// takes the place of the first.
#[test]
fn a_second_connection_is_refused_or_takes_the_place(rt: HostRuntime) -> Result<(), Fail> {
    let mut side = node_0(rt.alloc())?;
    Ok(refuses_or_takes(&rt, &mut side)?)
}

/// What node 0 says first to node 1: its Hello, a beat, and what waited.
fn greeting(alloc: Global) -> Result<Vec<u8>, AllocError> {
    let hello = record_bytes(&Record::Hello(hello(0, 1)));
    let mut all = joined(alloc, hello.as_slice(), &BEAT_RECORD)?;
    all.extend_from_slice(&ASK_RECORD)?;
    Ok(all)
}

/// A node for which something waits, and to which a Hello is said.
fn greeted(alloc: Global) -> Result<Side, AllocError> {
    let mut side = node_0(alloc)?;
    side.peers.send(1, &ASK, 0);
    say(&mut side, 0, &HELLO_RECORD, 1_000)?;
    Ok(side)
}

/// A peer that is there is told a beat, and then what waits for it.
#[test]
fn the_beat_goes_before_the_frame(rt: HostRuntime) -> Result<(), Fail> {
    let side = greeted(rt.alloc())?;
    let all = greeting(rt.alloc())?;
    assert_bytes(&rt, side.wire.written(Line::Caller(0)), all.as_slice());
    Ok(())
}

/// A frame comes byte by byte.
fn hears_byte_by_byte(rt: &impl Abort, side: &mut Side) -> Result<(), AllocError> {
    say(side, 0, &HELLO_RECORD, 1_000)?;
    for byte in &ASK_RECORD {
        assert_number(rt, side.seen.frames as u64, 0);
        side.wire.come(Line::Caller(0), &[*byte])?;
        side.turn(1_000);
    }
    assert_number(rt, side.seen.frames as u64, 1);
    Ok(())
}

/// A beat, a second Hello, and behind it a frame that isn't heard.
fn hears_no_more(rt: &impl Abort, side: &mut Side) -> Result<(), AllocError> {
    side.wire.come(Line::Caller(0), &BEAT_RECORD)?;
    side.wire.come(Line::Caller(0), &HELLO_RECORD)?;
    side.wire.come(Line::Caller(0), &ASK_RECORD)?;
    side.turn(1_000);
    assert_number(rt, side.seen.frames as u64, 1);
    assert_number(rt, side.seen.fault as u64, 126);
    Ok(())
}

/// Both, one behind the other.
fn hears_until_a_second_hello(rt: &impl Abort, side: &mut Side) -> Result<(), AllocError> {
    hears_byte_by_byte(rt, side)?;
    hears_no_more(rt, side)
}

/// In pieces of any length the same is heard; a second Hello closes the connection, and from then on nothing is heard.
#[test]
fn bytes_come_one_by_one(rt: HostRuntime) -> Result<(), Fail> {
    let mut side = node_0(rt.alloc())?;
    Ok(hears_until_a_second_hello(&rt, &mut side)?)
}

/// What is told and said of words that are refused by this fault: nothing of what waits.
fn is_refused(rt: &impl Abort, side: &Side, fault: u64, answer: u64) {
    assert_number(rt, side.seen.fault as u64, fault);
    assert_number(rt, side.seen.strangers as u64, 1);
    assert_number(rt, side.seen.joined as u64, 0);
    assert_number(rt, side.seen.frames as u64, 0);
    assert_number(rt, said(side, 0), answer);
}

/// Where something waits, who says this is refused by this fault and counted, and so many bytes are said to him.
fn refuses_words(
    rt: &impl Abort,
    side: &mut Side,
    words: &[u8],
    fault: u64,
    answer: u64,
) -> Result<(), AllocError> {
    side.peers.send(1, &ASK, 0);
    say(side, 0, words, 1_000)?;
    is_refused(rt, side, fault, answer);
    Ok(())
}

/// The same of this node.
fn refuses(
    rt: &impl Abort,
    alloc: Global,
    own: Own,
    words: &[u8],
    fault: u64,
    answer: u64,
) -> Result<(), AllocError> {
    let mut side = Side::of(alloc, own, &[], 0)?;
    refuses_words(rt, &mut side, words, fault, answer)
}

/// A frame before the Hello, which is refused.
fn refuses_a_late_hello(rt: &impl Abort, alloc: Global) -> Result<(), AllocError> {
    let late = joined(alloc, &ASK_RECORD, &HELLO_RECORD)?;
    refuses(rt, alloc, own(0, 9, None), late.as_slice(), 126, 0)
}

/// A Hello without codes and a frame behind it, at this node.
fn refuses_both(
    rt: &impl Abort,
    alloc: Global,
    own: Own,
    fault: u64,
    answer: u64,
) -> Result<(), AllocError> {
    let both = joined(alloc, &HELLO_RECORD, &ASK_RECORD)?;
    refuses(rt, alloc, own, both.as_slice(), fault, answer)
}

/// A frame before the Hello; a kind that there isn't; a Hello with codes at a node without a key, and one without at a node with
/// one, and one of another match, each of which is answered.
#[test]
fn others_are_refused_and_answered(rt: HostRuntime) -> Result<(), Fail> {
    let alloc = rt.alloc();
    let coded = record_bytes(&Record::Hello(coded_hello(1, 0, 3)));
    refuses_a_late_hello(&rt, alloc)?;
    refuses(&rt, alloc, own(0, 9, None), &[0, 0, 0, 1, 9], 121, 0)?;
    refuses(&rt, alloc, own(0, 9, None), coded.as_slice(), 122, 82)?;
    refuses_both(&rt, alloc, own(0, 9, Some(7)), 122, 114)?;
    refuses_both(&rt, alloc, own(0, 8, None), 123, 82)?;
    Ok(())
}

/// Who says these words is answered by so many bytes, and let go after two seconds, as nobody.
fn lets_go(rt: &impl Abort, side: &mut Side, words: &[u8], answer: u64) -> Result<(), AllocError> {
    say(side, 0, words, 1_000)?;
    assert_number(rt, said(side, 0), answer);
    side.turn(2_000_999);
    assert_that(rt, side.wire.is_open(Line::Caller(0)));
    side.turn(2_001_000);
    assert_that(rt, !side.wire.is_open(Line::Caller(0)));
    assert_number(rt, side.seen.joined as u64, 0);
    assert_number(rt, side.seen.fault as u64, 0);
    Ok(())
}

/// The same of a node with a key of such bytes or none.
fn node_lets_go(
    rt: &impl Abort,
    alloc: Global,
    key: Option<u8>,
    words: &[u8],
    answer: u64,
) -> Result<(), AllocError> {
    let mut side = Side::of(alloc, own(0, 9, key), &[], 0)?;
    lets_go(rt, &mut side, words, answer)
}

/// One who says nothing, and with a key one who says a Hello and proves nothing, is nobody, and is let go after two seconds.
/// The second is answered by a Hello of 114 bytes and a proof of 37.
#[test]
fn who_proves_nothing_is_let_go(rt: HostRuntime) -> Result<(), Fail> {
    let record = record_bytes(&Record::Hello(coded_hello(1, 0, 3)));
    node_lets_go(&rt, rt.alloc(), None, &[], 0)?;
    node_lets_go(&rt, rt.alloc(), Some(7), record.as_slice(), 151)?;
    Ok(())
}

/// Somebody sends a Hello and 8,000 records behind it, of 120,082 bytes in all.
fn send_much(alloc: Global, side: &mut Side) -> Result<(), AllocError> {
    let mut much = Vec::from_slice(alloc, &HELLO_RECORD)?;
    for _ in 0..8_000 {
        much.extend_from_slice(&ASK_RECORD)?;
    }
    side.wire.call();
    side.turn(1_000);
    side.wire.come(Line::Caller(0), much.as_slice())
}

/// How many frames are told until there is nothing more to tell.
fn frames_told(side: &mut Side) -> u64 {
    let mut frames = 0u64;
    for _ in 0..10_000 {
        match side.peers.next() {
            Some(node_peers::Notice::Frame { from: _, frame: _ }) => {
                frames = frames.saturating_add(1);
            }
            Some(_) => (),
            None => break,
        }
    }
    frames
}

/// How many frames are heard in a turn.
fn frames_heard(side: &mut Side) -> u64 {
    side.wire.set_now(2_000);
    side.hear(2_000);
    frames_told(side)
}

/// Of those bytes 65,536 are read in a turn: a Hello, and 4,363 whole records behind it; then the rest.
fn hears_in_bounds(rt: &impl Abort, side: &mut Side) {
    assert_number(rt, frames_heard(side), 4_363);
    assert_number(rt, side.peers.wait(2_000), 0);
    assert_number(rt, frames_heard(side), 3_637);
}

/// Who sends without end is read in bounds, and told at fault by the first record.
#[test]
fn one_who_sends_without_end_holds_nobody_up(rt: HostRuntime) -> Result<(), Fail> {
    let mut side = node_0(rt.alloc())?;
    send_much(rt.alloc(), &mut side)?;
    hears_in_bounds(&rt, &mut side);
    Ok(())
}

/// A node that dials at first, gives up after two seconds, and dials anew.
fn gives_up(rt: &impl Abort, side: &mut Side) {
    side.turn(0);
    side.turn(1_999_999);
    assert_that(rt, side.wire.is_open(Line::Peer(0)));
    side.turn(2_000_000);
    assert_that(rt, !side.wire.is_open(Line::Peer(0)));
    side.turn(2_000_001);
    assert_that(rt, side.wire.is_open(Line::Peer(0)));
}

/// A dial that was answered and brings no Hello is given up after two seconds, and made anew.
#[test]
fn a_hello_is_awaited_for_two_seconds(rt: HostRuntime) -> Result<(), Fail> {
    let mut side = Side::new(rt.alloc(), 1, 9, &[], 0)?;
    gives_up(&rt, &mut side);
    Ok(())
}

/// Both take a turn: whether node 1 dials in it.
fn dials(alloc: Global, low: &mut Side, high: &mut Side, now: u64) -> Result<bool, AllocError> {
    let was_open = high.wire.is_open(Line::Peer(0));
    take_turns(alloc, low, high, now, 1)?;
    Ok(!was_open && high.wire.is_open(Line::Peer(0)))
}

/// How often it dials in so many milliseconds.
fn count_dials(
    alloc: Global,
    low: &mut Side,
    high: &mut Side,
    milliseconds: u64,
) -> Result<u64, AllocError> {
    let mut count = 0u64;
    for turn in 0..milliseconds {
        if dials(alloc, low, high, turn.saturating_mul(1_000))? {
            count = count.saturating_add(1);
        }
    }
    Ok(count)
}

/// How often a node that another match refuses dials in so many milliseconds.
fn dials_in(alloc: Global, milliseconds: u64) -> Result<u64, AllocError> {
    let mut low = node_0(alloc)?;
    let mut high = Side::new(alloc, 1, 8, &[], 0)?;
    count_dials(alloc, &mut low, &mut high, milliseconds)
}

/// Who is refused dials again after one second, then after two and after four.
#[test]
fn who_is_refused_dials_ever_later(rt: HostRuntime) -> Result<(), Fail> {
    assert_number(&rt, dials_in(rt.alloc(), 7_500)?, 4);
    Ok(())
}

/// Turns of a node that hears nothing, two a second, from one second to another.
fn turns_alone(side: &mut Side, from: u64, to: u64) {
    for second in from..to {
        let now = second.saturating_mul(1_000_000);
        side.turn(now);
        side.turn(now.saturating_add(500_000));
    }
}

/// That dials of a peer bring no Hello is told once a minute, as long as they do.
#[test]
fn who_answers_no_dial_is_told_once_a_minute(rt: HostRuntime) -> Result<(), Fail> {
    let mut side = Side::new(rt.alloc(), 1, 9, &[], 0)?;
    turns_alone(&mut side, 0, 62);
    assert_number(&rt, side.seen.unreached as u64, 0);
    turns_alone(&mut side, 62, 122);
    assert_number(&rt, side.seen.unreached as u64, 1);
    turns_alone(&mut side, 122, 124);
    assert_number(&rt, side.seen.unreached as u64, 2);
    assert_number(&rt, side.seen.refuses as u64, 0);
    Ok(())
}
