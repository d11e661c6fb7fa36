//! In which version a node is dialled, and when.

use crate::pair::Side;
use crate::samples::{assert_number, assert_that, coded_hello, hello, own, second};
use node_wires::Line;
use peer_codes::{Hello, Record, record_bytes};
use std::alloc::{AllocError, Global};
use std::process::Abort;
use std::test::Fail;

/// What becomes of a dial of node 0.
#[derive(Clone, Copy)]
enum Answer {
    /// It isn't made.
    NoDial,
    /// It is closed without a byte.
    Closed,
    /// A Hello of the first version comes.
    First,
    /// One of the second comes.
    Second,
    /// Something comes that is a Hello of no version.
    Third,
}

/// The last byte of a version's magic number, which is the ninth of the record of its Hello; 0 where node 0 isn't dialled.
fn version_said(side: &mut Side) -> u64 {
    let byte = side
        .wire
        .written(Line::Peer(0))
        .get(8)
        .copied()
        .unwrap_or(0);
    side.wire.take_written(Line::Peer(0));
    byte as u64
}

/// Moments, in milliseconds, and the version in which node 0 is dialled then; 0 where it isn't.
static DIALS: [(u64, u64); 9] = [
    (0, 50),
    (99, 0),
    (101, 49),
    (300, 0),
    (302, 50),
    (601, 0),
    (603, 49),
    (1_002, 0),
    (1_004, 50),
];

/// A dial that is answered and closed without a byte is made again after 0.1 s, 0.2 s and so on; each second one is a probe in
/// the first version.
#[test]
fn closed_dials_are_made_again(rt: HostRuntime) -> Result<(), Fail> {
    let mut high = Side::new(rt.alloc(), 1, 9, &[], 0)?;
    for &(at, version) in &DIALS {
        let now = at.saturating_mul(1_000);
        high.turn(now);
        assert_number(&rt, version_said(&mut high), version);
        if version != 0 {
            high.wire.end(Line::Peer(0));
            high.turn(now);
        }
    }
    Ok(())
}

/// A Hello comes by the dial of node 0, of which this byte is another, if one is.
fn come(side: &mut Side, hello: Hello, byte: Option<u8>, now: u64) -> Result<(), AllocError> {
    let mut record = record_bytes(&Record::Hello(hello));
    if let Some(byte) = byte {
        if let Some(last) = record.as_mut_slice().get_mut(8) {
            *last = byte;
        }
    }
    side.wire.come(Line::Peer(0), record.as_slice())?;
    side.turn(now);
    Ok(())
}

/// What becomes of a dial happens, where node 0 says this Hello of the first version.
fn happens(side: &mut Side, answer: Answer, own: Hello, now: u64) -> Result<(), AllocError> {
    match answer {
        Answer::NoDial => Ok(()),
        Answer::Closed => {
            side.wire.end(Line::Peer(0));
            side.turn(now);
            Ok(())
        }
        Answer::First => come(side, own, None, now),
        Answer::Second => come(side, second(own), None, now),
        Answer::Third => come(side, second(own), Some(51), now),
    }
}

/// What becomes of dials: at moments in milliseconds, each with the version of the dial; by the last a connection opens. Behind
/// them, how many faults were told.
static COURSES: [(&[(u64, u64, Answer)], u64); 9] = [
    // A node that knows the second version.
    (&[(0, 50, Answer::Second)], 0),
    // A proxy whose node comes before a probe: nobody is there by the probe.
    (
        &[
            (0, 50, Answer::Closed),
            (101, 49, Answer::First),
            (150, 0, Answer::NoDial),
            (152, 50, Answer::Second),
        ],
        0,
    ),
    // One whose node comes behind a probe.
    (
        &[
            (0, 50, Answer::Closed),
            (101, 49, Answer::Closed),
            (302, 50, Answer::Second),
        ],
        0,
    ),
    // One whose node is gone again behind a probe, and another time before it.
    (
        &[
            (0, 50, Answer::Closed),
            (101, 49, Answer::Closed),
            (302, 50, Answer::Closed),
            (603, 49, Answer::First),
            (654, 50, Answer::Second),
        ],
        0,
    ),
    // An older node that closes a dial in the second version.
    (
        &[
            (0, 50, Answer::Closed),
            (101, 49, Answer::First),
            (152, 50, Answer::Closed),
            (253, 49, Answer::First),
        ],
        0,
    ),
    // One that answers it by its own Hello: no 122 is told.
    (&[(0, 50, Answer::First), (51, 49, Answer::First)], 0),
    // One that does behind a probe.
    (
        &[
            (0, 50, Answer::Closed),
            (101, 49, Answer::First),
            (152, 50, Answer::First),
            (203, 49, Answer::First),
        ],
        0,
    ),
    // One that is gone meanwhile, and back as another program.
    (
        &[
            (0, 50, Answer::First),
            (51, 49, Answer::Closed),
            (152, 50, Answer::Second),
        ],
        0,
    ),
    // A Hello of no version is told as 122, and doesn't lead to the first.
    (
        &[
            (0, 50, Answer::Third),
            (999, 0, Answer::NoDial),
            (1_001, 50, Answer::Second),
        ],
        1,
    ),
];

/// Whether node 0 is there.
fn is_there(side: &Side) -> bool {
    match side.peers.view(0) {
        Some(view) => view.is_open,
        None => false,
    }
}

/// The dials of a node go as they have to, where node 0 says this Hello of the first version.
fn goes(
    rt: &impl Abort,
    side: &mut Side,
    own: Hello,
    dials: &[(u64, u64, Answer)],
) -> Result<(), AllocError> {
    for &(at, version, answer) in dials {
        assert_that(rt, !is_there(side));
        let now = at.saturating_mul(1_000);
        side.turn(now);
        assert_number(rt, version_said(side), version);
        happens(side, answer, own, now)?;
    }
    Ok(())
}

/// A connection opens in the first version only where node 0 is known to be an older node.
#[test]
fn the_first_version_is_for_older_nodes(rt: HostRuntime) -> Result<(), Fail> {
    for &(dials, refused) in &COURSES {
        let mut high = Side::new(rt.alloc(), 1, 9, &[], 0)?;
        goes(&rt, &mut high, hello(0, 1), dials)?;
        assert_that(&rt, is_there(&high));
        assert_number(&rt, high.seen.joined as u64, 1);
        assert_number(&rt, high.seen.refused as u64, refused);
    }
    Ok(())
}

/// With a key too no 122 is told of an older node, which answers by its own Hello, and it is dialled in its version.
#[test]
fn older_nodes_with_a_key_are_met(rt: HostRuntime) -> Result<(), Fail> {
    let alloc: Global = rt.alloc();
    let mut high = Side::of(alloc, own(1, 9, Some(7)), &[], 0)?;
    let dials = [(0, 50, Answer::First), (51, 49, Answer::NoDial)];
    goes(&rt, &mut high, coded_hello(0, 1, 5), &dials)?;
    assert_number(&rt, high.seen.refused as u64, 0);
    Ok(())
}
