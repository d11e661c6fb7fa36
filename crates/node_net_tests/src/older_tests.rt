//! Stores that are older copies: who promises less than he had promised is refused, and told so.

use crate::pair::{Side, said, take_turns};
use crate::samples::{
    ACCEPT, ACCEPTED, LOW_BEAT_RECORD, PREPARE, REFUSE, assert_bytes, assert_number, assert_that,
    frame, hello, own, second,
};
use node_wires::Line;
use paxos_wire::Ballot;
use peer_codes::{Hello, Record, record_bytes};
use std::alloc::{AllocError, Global};
use std::process::Abort;
use std::test::Fail;

/// The ballot that REFUSE names as promised.
const REFUSED_BY: Ballot = Ballot { round: 5, node: 2 };

/// The ballot of ACCEPTED.
const VOTED: Ballot = Ballot { round: 1, node: 1 };

/// A record that tells who reads it that he is known to have promised the ballot (5, 2).
const PROMISED_RECORD: [u8; 10] = [0, 0, 0, 6, 6, 0, 0, 0, 5, 2];

/// How long a ballot was shown before another dials, so that its Hello is compared with that, and a moment more.
const LATER: u64 = 9_000_000;

/// Node 0, which has promised this.
fn node_0(alloc: Global, promised: Option<Ballot>) -> Result<Side, AllocError> {
    let mut side = Side::of(alloc, own(0, 9, None), &[], 0)?;
    side.peers.set_promised(promised);
    Ok(side)
}

/// What node 1 says first in the second version, which has promised this.
fn promising(promised: Option<Ballot>) -> Hello {
    Hello {
        promised,
        ..second(hello(1, 0))
    }
}

/// Somebody dials at this moment, and says this Hello; whoever stands at place 0 is gone by then.
fn greet(side: &mut Side, hello: Hello, now: u64) -> Result<(), AllocError> {
    let record = record_bytes(&Record::Hello(hello));
    side.wire.end(Line::Caller(0));
    side.turn(now.saturating_sub(1_000));
    side.wire.call();
    side.turn(now);
    side.wire.come(Line::Caller(0), record.as_slice())?;
    side.turn(now);
    Ok(())
}

/// A record of this frame comes at place 0.
fn come(rt: &impl Abort, side: &mut Side, bytes: &[u8], now: u64) -> Result<(), AllocError> {
    let record = record_bytes(&Record::Frame(frame(rt, bytes)));
    side.wire.come(Line::Caller(0), record.as_slice())?;
    side.turn(now);
    Ok(())
}

/// Whether node 1 is there.
fn is_there(side: &Side) -> bool {
    match side.peers.view(1) {
        Some(view) => view.is_open,
        None => false,
    }
}

/// Node 1 is known to have promised this.
fn assert_heard(rt: &impl Abort, side: &Side, expected: Option<Ballot>) {
    assert_that(rt, side.peers.heard(1) == expected);
}

/// Node 1 is there, and answers by these frames: what it is known to have promised behind each.
fn shows(
    rt: &impl Abort,
    alloc: Global,
    frames: &[(&[u8], Option<Ballot>)],
) -> Result<(), AllocError> {
    let mut side = node_0(alloc, None)?;
    greet(&mut side, promising(None), 1_000)?;
    for &(bytes, expected) in frames {
        come(rt, &mut side, bytes, 2_000)?;
        assert_heard(rt, &side, expected);
    }
    Ok(())
}

/// A Prepare and an Accept show nothing, an Accepted its ballot, a Refuse the one that it names, and a lesser one changes nothing.
static FRAMES: [(&[u8], Option<Ballot>); 5] = [
    (&PREPARE, None),
    (&ACCEPT, None),
    (&ACCEPTED, Some(VOTED)),
    (&REFUSE, Some(REFUSED_BY)),
    (&ACCEPTED, Some(REFUSED_BY)),
];

#[test]
fn answers_show_what_was_promised(rt: HostRuntime) -> Result<(), Fail> {
    Ok(shows(&rt, rt.alloc(), &FRAMES)?)
}

/// Node 0 knows that node 1 had promised (5, 2), and it isn't there any more.
fn knowing(rt: &impl Abort, alloc: Global) -> Result<Side, AllocError> {
    let mut side = node_0(alloc, Some(VOTED))?;
    greet(&mut side, promising(Some(VOTED)), 1_000)?;
    come(rt, &mut side, &REFUSE, 2_000)?;
    side.wire.end(Line::Caller(0));
    side.turn(3_000);
    side.forget();
    Ok(side)
}

/// What node 0 says to one who is refused: its own Hello, in the version of his, and what he had promised where that is the second.
fn farewell(alloc: Global, is_second: bool) -> Result<Vec<u8>, AllocError> {
    let first = hello(0, 1);
    let own = Hello {
        promised: Some(VOTED),
        kept: Some(crate::samples::life(2)),
        ..if is_second { second(first) } else { first }
    };
    let record = record_bytes(&Record::Hello(own));
    let mut all = Vec::from_slice(alloc, record.as_slice())?;
    if is_second {
        all.extend_from_slice(&PROMISED_RECORD)?;
    }
    Ok(all)
}

/// An older copy says this Hello: it is refused by 130, told what it had promised where it can be, and nobody is there.
fn refuses(rt: &impl Abort, alloc: Global, said: Hello, is_second: bool) -> Result<(), AllocError> {
    let mut side = knowing(rt, alloc)?;
    greet(&mut side, said, 2_000 + LATER)?;
    assert_that(rt, !is_there(&side));
    assert_that(rt, !side.wire.is_open(Line::Caller(0)));
    assert_number(rt, side.seen.fault as u64, 130);
    assert_number(rt, side.seen.refused as u64, 1);
    assert_number(rt, side.seen.joined as u64, 0);
    let all = farewell(alloc, is_second)?;
    assert_bytes(rt, side.wire.written(Line::Caller(0)), all.as_slice());
    Ok(())
}

/// A copy from before the ballot, one from before any, and an older node.
#[test]
fn an_older_copy_is_refused(rt: HostRuntime) -> Result<(), Fail> {
    let alloc = rt.alloc();
    refuses(&rt, alloc, promising(Some(VOTED)), true)?;
    refuses(&rt, alloc, promising(None), true)?;
    refuses(&rt, alloc, hello(1, 0), false)?;
    Ok(())
}

/// A node that says so much, so long behind what it showed, is there: at these places it is told what it had promised, or not.
fn takes(
    rt: &impl Abort,
    alloc: Global,
    promised: Ballot,
    now: u64,
    bytes: u64,
) -> Result<(), AllocError> {
    let mut side = knowing(rt, alloc)?;
    greet(&mut side, promising(Some(promised)), now)?;
    assert_that(rt, is_there(&side));
    assert_number(rt, side.seen.refused as u64, 0);
    assert_heard(rt, &side, Some(REFUSED_BY));
    // A Hello, a beat, and lives of three nodes; and ten bytes of the ballot.
    assert_number(rt, said(&side, 0), bytes);
    Ok(())
}

/// A copy from behind the ballot is taken, and told nothing. One that dials sooner is taken, and told: it may have dialled before it
/// showed that.
#[test]
fn who_may_be_right_is_taken(rt: HostRuntime) -> Result<(), Fail> {
    let alloc = rt.alloc();
    takes(&rt, alloc, REFUSED_BY, 2_000 + LATER, 155)?;
    takes(&rt, alloc, VOTED, 8_001_000, 165)?;
    Ok(())
}

/// Who dials anew beside a connection that is open here is taken, whatever its Hello promises, and told.
fn takes_beside(rt: &impl Abort, alloc: Global) -> Result<(), AllocError> {
    let mut side = node_0(alloc, Some(VOTED))?;
    greet(&mut side, promising(Some(VOTED)), 1_000)?;
    come(rt, &mut side, &REFUSE, 2_000)?;
    side.wire.come(Line::Caller(0), &LOW_BEAT_RECORD)?;
    // It goes on being heard until 1.5 s before it dials anew.
    side.turn(LATER);
    side.forget();
    let record = record_bytes(&Record::Hello(promising(Some(VOTED))));
    side.wire.call();
    side.turn(LATER + 1_500_000);
    side.wire.come(Line::Caller(1), record.as_slice())?;
    side.turn(LATER + 1_500_000);
    assert_that(rt, is_there(&side));
    assert_that(rt, side.wire.is_open(Line::Caller(1)));
    assert_number(rt, side.seen.refused as u64, 0);
    assert_number(rt, said(&side, 1), 165);
    Ok(())
}

#[test]
fn a_dial_beside_an_open_connection_is_taken(rt: HostRuntime) -> Result<(), Fail> {
    Ok(takes_beside(&rt, rt.alloc())?)
}

/// Node 1 tells node 0, which has promised this, that it had promised (5, 2): the fault that is told, or 0.
fn hears(rt: &impl Abort, side: &mut Side, fault: u64) -> Result<(), AllocError> {
    greet(side, promising(None), 1_000)?;
    side.wire.come(Line::Caller(0), &PROMISED_RECORD)?;
    side.turn(2_000);
    assert_number(rt, side.seen.fault as u64, fault);
    assert_that(rt, is_there(side) == (fault == 0));
    Ok(())
}

/// Where this node has promised as much, or more, it says nothing; nor where what it has promised wasn't told yet.
#[test]
fn a_greater_ballot_shows_an_older_store(rt: HostRuntime) -> Result<(), Fail> {
    let alloc = rt.alloc();
    hears(&rt, &mut node_0(alloc, Some(VOTED))?, 130)?;
    hears(&rt, &mut node_0(alloc, None)?, 130)?;
    hears(&rt, &mut node_0(alloc, Some(REFUSED_BY))?, 0)?;
    let above = Ballot { round: 6, node: 0 };
    hears(&rt, &mut node_0(alloc, Some(above))?, 0)?;
    hears(&rt, &mut Side::of(alloc, own(0, 9, None), &[], 0)?, 0)?;
    Ok(())
}

/// What a node promises only rises, also where it tells none or less.
#[test]
fn what_is_promised_only_rises(rt: HostRuntime) -> Result<(), Fail> {
    let mut side = node_0(rt.alloc(), Some(REFUSED_BY))?;
    side.peers.set_promised(None);
    side.peers.set_promised(Some(VOTED));
    hears(&rt, &mut side, 0)?;
    Ok(())
}

/// Both processes of a connection with these bytes of a key, or without one, of which one has an older copy of its store: node 1,
/// which dials, or node 0. Each of them is told.
fn both_are_told(
    rt: &impl Abort,
    alloc: Global,
    key: Option<u8>,
    is_caller: bool,
) -> Result<(), AllocError> {
    let mut low = Side::of(alloc, own(0, 9, key), &[], 0)?;
    let mut high = Side::of(alloc, own(1, 9, key), &[], 0)?;
    low.peers.set_promised(Some(VOTED));
    high.peers.set_promised(Some(VOTED));
    if is_caller {
        low.peers.set_heard(1, REFUSED_BY);
    } else {
        high.peers.set_heard(0, REFUSED_BY);
    }
    take_turns(alloc, &mut low, &mut high, LATER, 12)?;
    assert_number(rt, low.seen.fault as u64, 130);
    assert_number(rt, high.seen.fault as u64, 130);
    assert_number(rt, low.seen.frames as u64 + high.seen.frames as u64, 0);
    Ok(())
}

#[test]
fn both_sides_are_told(rt: HostRuntime) -> Result<(), Fail> {
    for key in [None, Some(7)] {
        for is_caller in [true, false] {
            both_are_told(&rt, rt.alloc(), key, is_caller)?;
        }
    }
    Ok(())
}

/// What was kept of a peer is known, and of a number that no node has nothing is.
#[test]
fn what_was_kept_is_known(rt: HostRuntime) -> Result<(), Fail> {
    let mut side = node_0(rt.alloc(), None)?;
    side.peers.set_heard(1, REFUSED_BY);
    side.peers.set_heard(1, VOTED);
    side.peers.set_heard(7, VOTED);
    assert_heard(&rt, &side, Some(REFUSED_BY));
    assert_that(&rt, side.peers.heard(2) == None);
    assert_that(&rt, side.peers.heard(7) == None);
    Ok(())
}
