//! Events that a cluster is given at once, and the rest of them once more where it found no memory.

ghost use Rattle.std.specs.List.{All};
ghost use Rattle.dealer_world.specs.Promise.{IsForMatch};
ghost use Rattle.dealer_world.specs.Viewing.{view_of};

use crate::rounds::{assert_for, cluster_over, disks, give};
use crate::samples::{ACCEPT, ACCEPTED, PREPARE, PROMISE, assert_bytes, assert_same, holds};
use dealer_node::{NodeFault, is_out_of_memory};
use dealer_world::{Arrival, Cluster, Event, Frame, Piece, Stopped, What};
use promise_store::Disk;
use std::alloc::{AllocError, Global};
use std::process::Abort;
use std::test::Fail;

/// What bob's seat sends to node 0: the version, and once the deal is chosen a fold.
const VERSION: &[u8] = b"VERSION:2.0.0\r\n";

const FOLD: &[u8] = b"MATCHSTATE:1:0::|8hTc:f\r\n";

/// The fold, proposed in (1, 0) at slot 1.
const ACCEPT_FOLD: &[u8] =
    b"\x00\x00\x00\x18\x02\x04\x00\x00\x00\x01\x00\x00\x00\x00\x01\x01\x02\x00\x00\x00\x00\x00\x00\x00\x00\x00\x00\x00";

/// The same, accepted.
const ACCEPTED_FOLD: &[u8] =
    b"\x00\x00\x00\x18\x02\x05\x00\x00\x00\x01\x00\x00\x00\x00\x01\x01\x02\x00\x00\x00\x00\x00\x00\x00\x00\x00\x00\x00";

/// A frame of a node to another.
fn frame(alloc: Global, from: u8, to: u8, bytes: &[u8]) -> Result<Event, AllocError> {
    let bytes = bytes.to_vec(alloc)?;
    Ok(Event::Frame { from, to, bytes })
}

/// A line of bob's seat to node 0.
fn line(alloc: Global, bytes: &[u8]) -> Result<Event, AllocError> {
    let bytes = bytes.to_vec(alloc)?;
    Ok(Event::Line {
        node: 0,
        seat: 1,
        bytes,
    })
}

/// Bob is seated at node 0, which has its deal chosen with node 1; he folds, and that is chosen.
fn match_of_a_fold(alloc: Global) -> Result<[Event; 10], AllocError> {
    Ok([
        Event::Connect { node: 0, seat: 1 },
        line(alloc, VERSION)?,
        Event::Tick { node: 0 },
        frame(alloc, 0, 1, PREPARE)?,
        frame(alloc, 1, 0, PROMISE)?,
        frame(alloc, 0, 1, ACCEPT)?,
        frame(alloc, 1, 0, ACCEPTED)?,
        line(alloc, FOLD)?,
        frame(alloc, 0, 1, ACCEPT_FOLD)?,
        frame(alloc, 1, 0, ACCEPTED_FOLD)?,
    ])
}

/// Asserts that events are of a cluster's match.
fn assert_all_for<D: Disk + Drop>(rt: &impl Abort, cluster: &Cluster<D>, events: &[Event])
    ensures { All (IsForMatch (view_of cluster.now).config) events.now }
{
    for event in events.iter() {
        assert_for(rt, cluster, event);
    }
}

/// Gives events to their nodes one by one; an event that finds no memory is given once more.
fn step_all<D: Disk + Drop>(rt: &impl Abort, cluster: &mut Cluster<D>, events: &[Event]) {
    for event in events.iter() {
        if is_out_of_memory(give(rt, cluster, event)) {
            let _ = give(rt, cluster, event);
        }
    }
}

/// Gives events to their nodes at once.
fn run<D: Disk + Drop>(
    rt: &impl Abort,
    cluster: &mut Cluster<D>,
    events: &[Event],
) -> Result<(), Stopped> {
    assert_all_for(rt, cluster, events);
    cluster.run(events)
}

/// Gives events to their nodes at once, and where one finds no memory, it and those behind it once more: the number of
/// that one, if one did.
fn run_on<D: Disk + Drop>(
    rt: &impl Abort,
    cluster: &mut Cluster<D>,
    events: &[Event],
) -> Option<usize> {
    match run(rt, cluster, events) {
        Ok(()) => None,
        Err(stop) => {
            let rest = events.get(stop.at..).expect(rt, "it stopped at an event");
            holds!(rt; run(rt, cluster, rest).is_ok());
            Some(stop.at)
        }
    }
}

/// Whether a call of a node's disk failed, by want of memory in a disk.
fn has_failed<D: Disk + Drop>(cluster: &Cluster<D>) -> bool {
    (0..cluster.node_count()).any(|node| cluster.node(node).failures() > 0)
}

/// Asserts that two frames are one.
fn assert_same_frame(rt: &impl Abort, found: Frame<'_>, due: Frame<'_>) {
    assert_same(rt, (found.from, found.to), (due.from, due.to));
    assert_bytes(rt, found.bytes, due.bytes);
}

/// Asserts that two pieces are one.
fn assert_same_piece(rt: &impl Abort, found: Piece<'_>, due: Piece<'_>) {
    assert_same(rt, (found.node, found.start), (due.node, due.start));
    holds!(rt; found.reader == due.reader);
    assert_bytes(rt, found.text, due.text);
}

/// What came, by numbers: its kind, and from where to where, or which seat's it is at which node; of an order the node and
/// its front.
fn told(what: What) -> (u8, u8, u32) {
    match what {
        What::Frame { from, to } => (0, from, to as u32),
        What::Line { node, seat } => (1, node, seat as u32),
        What::Connect { node, seat } => (2, node, seat as u32),
        What::Drop { node, seat } => (3, node, seat as u32),
        What::Away { node, front } => (4, node, front),
    }
}

/// Asserts that two arrivals are one.
fn assert_same_arrival(rt: &impl Abort, found: Arrival<'_>, due: Arrival<'_>) {
    assert_same(rt, told(found.what), told(due.what));
    assert_same(rt, found.sent_before, due.sent_before);
    assert_bytes(rt, found.bytes, due.bytes);
}

/// Asserts that two clusters sent the same frames.
fn assert_same_frames<D: Disk + Drop>(rt: &impl Abort, found: &Cluster<D>, due: &Cluster<D>) {
    assert_same(rt, found.frame_count(), due.frame_count());
    for number in 0..due.frame_count() {
        let frame = found.frame(number).expect(rt, "a frame");
        assert_same_frame(rt, frame, due.frame(number).expect(rt, "a frame"));
    }
}

/// Asserts that two clusters showed the same.
fn assert_same_pieces<D: Disk + Drop>(rt: &impl Abort, found: &Cluster<D>, due: &Cluster<D>) {
    assert_same(rt, found.piece_count(), due.piece_count());
    for number in 0..due.piece_count() {
        let piece = found.piece(number).expect(rt, "a piece");
        assert_same_piece(rt, piece, due.piece(number).expect(rt, "a piece"));
    }
}

/// Asserts that the same came to two clusters.
fn assert_same_arrivals<D: Disk + Drop>(rt: &impl Abort, found: &Cluster<D>, due: &Cluster<D>) {
    assert_same(rt, found.arrival_count(), due.arrival_count());
    for number in 0..due.arrival_count() {
        let arrival = found.arrival(number).expect(rt, "an arrival");
        assert_same_arrival(rt, arrival, due.arrival(number).expect(rt, "an arrival"));
    }
}

/// Asserts that the match of two clusters is over at node 0, and that they have the same record.
fn assert_same_records<D: Disk + Drop>(rt: &impl Abort, found: &Cluster<D>, due: &Cluster<D>) {
    assert_front(rt, found);
    assert_front(rt, due);
    assert_same_frames(rt, found, due);
    assert_same_pieces(rt, found, due);
    assert_same_arrivals(rt, found, due);
}

/// Asserts that node 0 has applied the deal and the fold.
fn assert_front<D: Disk + Drop>(rt: &impl Abort, cluster: &Cluster<D>) {
    assert!(rt; cluster.node_count() > 0);
    assert_same(rt, cluster.node(0).front(), 2);
}

/// What comes of events that are given at once is what comes of them one by one, also where one of them finds no memory,
/// and is given again with the rest. `tests/run_growths` runs this test and refuses it memory, and reads at which event.
#[test]
fn a_list_goes_on_where_it_found_no_memory(rt: HostRuntime) -> Result<(), Fail> {
    let alloc = rt.alloc();
    let events = match_of_a_fold(alloc)?;
    let mut due = cluster_over(&rt, alloc, disks(alloc, 3)?)?;
    let mut found = cluster_over(&rt, alloc, disks(alloc, 3)?)?;
    step_all(&rt, &mut due, &events);
    if let Some(at) = run_on(&rt, &mut found, &events) {
        println!(rt; "stopped at {at}")?;
    }
    if !has_failed(&due) && !has_failed(&found) {
        assert_same_records(&rt, &found, &due);
    }
    Ok(())
}
