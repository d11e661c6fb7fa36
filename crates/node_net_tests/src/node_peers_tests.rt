//! Processes that meet, refuse each other, lose each other and meet again.

use crate::pair::{SILENCE, Side, take_turns};
use crate::samples::{ACCEPTED, ASK, assert_bytes, assert_number, hello, life, own, second};
use node_wires::{Line, MemoryWire, Wire};
use peer_codes::{Record, record_bytes};
use std::alloc::{AllocError, Global};
use std::process::Abort;
use std::test::Fail;

/// Node 0 and node 1, without a key, which meet; a call of node 1's wire of this number fails.
fn met(alloc: Global, call: u64) -> Result<(Side, Side), AllocError> {
    let mut low = Side::new(alloc, 0, 9, &[], 0)?;
    let mut high = Side::new(alloc, 1, 9, &[], call)?;
    take_turns(alloc, &mut low, &mut high, 0, 6)?;
    Ok((low, high))
}

/// It joined so often, and was told of so many ends and of this fault.
fn assert_seen(rt: &impl Abort, side: &Side, joined: u64, gone: u64, fault: u64) {
    assert_number(rt, side.seen.joined as u64, joined);
    assert_number(rt, side.seen.gone as u64, gone);
    assert_number(rt, side.seen.fault as u64, fault);
}

/// Nodes that meet: the keys of both, the digest of node 1's match where that of node 0 is 9, whether node 0 keeps another life
/// of node 1, and the fault by which each refuses the other, or 0.
type Meeting = (Option<u8>, Option<u8>, u8, bool, u64);

static MEETINGS: [Meeting; 6] = [
    (None, None, 9, false, 0),
    (None, None, 8, false, 123),
    (None, None, 9, true, 127),
    (Some(7), Some(7), 9, false, 0),
    (Some(7), Some(8), 9, false, 124),
    (Some(7), Some(7), 9, true, 127),
];

/// Both sides of a meeting, behind eight turns. Node 1 had sent twenty frames before.
fn held(alloc: Global, meeting: Meeting) -> Result<(Side, Side), AllocError> {
    let (low, high, digest, is_other, _) = meeting;
    let kept = if is_other { Some(life(77)) } else { None };
    let mut low = Side::of(alloc, own(0, 9, low), &[None, kept], 0)?;
    let mut high = Side::of(alloc, own(1, digest, high), &[], 0)?;
    for _ in 0..20 {
        high.peers.send(0, &ACCEPTED, 0);
    }
    take_turns(alloc, &mut low, &mut high, 0, 8)?;
    Ok((low, high))
}

/// What was sent before they meet waits, sixteen frames of it, and the last Accepted goes once more when they do. Of who is there
/// a life is kept, and of no other; who is refused for his store is told by his number, and of the others a caller is counted.
#[test]
fn nodes_meet_or_refuse_each_other(rt: HostRuntime) -> Result<(), Fail> {
    for &meeting in &MEETINGS {
        let (low, high) = held(rt.alloc(), meeting)?;
        let (_, _, _, is_other, fault) = meeting;
        let joined = (fault == 0) as u64;
        for side in [&low, &high] {
            assert_seen(&rt, side, joined, 0, fault);
            assert_number(&rt, side.seen.lives as u64, joined);
        }
        let frames = if fault == 0 { 17 } else { 0 };
        assert_number(&rt, low.seen.frames as u64, frames);
        assert_number(&rt, low.seen.refused as u64, is_other as u64);
        let is_stranger = fault == 123 || fault == 124;
        assert_number(&rt, low.seen.strangers as u64, is_stranger as u64);
    }
    Ok(())
}

/// Frames cross both ways; the same Ask so soon is dropped, and so is one to nobody.
#[test]
fn frames_cross_both_ways(rt: HostRuntime) -> Result<(), Fail> {
    let alloc = rt.alloc();
    for place in [0, 3] {
        let (mut low, mut high) = held(alloc, MEETINGS[place])?;
        low.forget();
        low.peers.send(1, &ASK, 9_000);
        high.peers.send(0, &ACCEPTED, 9_000);
        low.peers.send(1, &ASK, 10_000);
        low.peers.send(9, &ASK, 10_000);
        take_turns(alloc, &mut low, &mut high, 10_000, 4)?;
        assert_number(&rt, low.seen.frames as u64, 1);
        assert_number(&rt, high.seen.frames as u64, 1);
        assert_number(&rt, high.seen.sum, 1);
    }
    Ok(())
}

/// Who dials says its Hello first, in the second version, whatever waits.
#[test]
fn the_caller_says_its_hello_first(rt: HostRuntime) -> Result<(), Fail> {
    let mut high = Side::new(rt.alloc(), 1, 9, &[], 0)?;
    high.peers.send(0, &ASK, 0);
    high.turn(0);
    let hello = record_bytes(&Record::Hello(second(hello(1, 0))));
    assert_bytes(&rt, high.wire.written(Line::Peer(0)), hello.as_slice());
    Ok(())
}

/// Over a connection that brings nothing for four times the silence nobody is there any more; they meet again.
#[test]
fn a_silent_peer_is_gone_and_comes_back(rt: HostRuntime) -> Result<(), Fail> {
    let alloc = rt.alloc();
    let (mut low, mut high) = met(alloc, 0)?;
    let later = SILENCE.saturating_mul(5);
    high.turn(later);
    low.turn(later);
    assert_seen(&rt, &high, 1, 1, 0);
    assert_seen(&rt, &low, 1, 1, 0);
    low.forget();
    high.forget();
    // The dial above is the one that is taken in.
    low.wire.call();
    take_turns(alloc, &mut low, &mut high, later.saturating_add(1_000), 6)?;
    assert_seen(&rt, &high, 1, 0, 0);
    assert_seen(&rt, &low, 1, 0, 0);
    Ok(())
}

/// More calls than a wire is given in the turns below.
const MOST_CALLS: u64 = 1_000;

/// Whether the call of this number was made of a wire, and so failed: else one of as many more does.
fn has_failed(wire: &mut MemoryWire, call: u64) -> bool {
    for _ in 0..call {
        if wire.draw().is_none() {
            return false;
        }
    }
    true
}

/// Each call of a wire failing once, until none does, they meet all the same, and no frame comes that wasn't sent.
#[test]
fn each_call_fails_once(rt: HostRuntime) -> Result<(), Fail> {
    let alloc = rt.alloc();
    for call in 1..MOST_CALLS {
        let (mut low, mut high) = met(alloc, call)?;
        high.peers.send(0, &ACCEPTED, 7_000);
        // A dial that was closed without a byte is made again after 0.1 s, as a probe, and once more 50 ms behind that.
        take_turns(alloc, &mut low, &mut high, 160_000, 8)?;
        take_turns(alloc, &mut low, &mut high, 220_000, 8)?;
        assert!(rt; low.seen.joined >= 1 && high.seen.joined >= 1);
        // Once, and once more where they met anew.
        assert!(rt; low.seen.frames <= 2 && low.seen.sum == 0);
        if !has_failed(&mut high.wire, call) {
            assert!(rt; call > 20);
            return Ok(());
        }
    }
    panic!(rt; "a call fails whatever its number");
}
