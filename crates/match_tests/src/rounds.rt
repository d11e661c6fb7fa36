//! A match of one hand, played on a cluster one step at a time, and what is due of it then.

ghost use Rattle.dealer_world.specs.Promise.{IsForMatch};
ghost use Rattle.dealer_world.specs.Viewing.{view_of};

use crate::samples::{assert_bytes, assert_same, deal, holds, one_hand};
use card_core::Deal;
use dealer_node::NodeFault;
use dealer_world::{Begun, Cluster, Event, What};
use promise_store::{Disk, OnceDisk};
use std::alloc::{AllocError, Global};
use std::process::Abort;
use std::test::Fail;

/// A frame that is due: its number, which way it goes, its bytes, and how many had been sent before it came.
pub(crate) type Due<'a> = (usize, (u8, u8), &'a [u8], usize);

/// A round of a new cluster, and what is due of it then. Nodes and frames are counted from 0.
pub(crate) struct Course<'a> {
    /// How many nodes it has.
    pub(crate) nodes: usize,
    /// A leader and others who together are a majority: its tick, then all Prepares, all Promises, all Accepts and all
    /// Accepteds between it and the others.
    pub(crate) round: (u8, &'a [u8]),
    /// Frames, by their numbers among all that were sent; none of them says what had been sent before.
    pub(crate) sent: &'a [Due<'a>],
    /// Frames, by their numbers among all that reached a running node.
    pub(crate) arrived: &'a [Due<'a>],
    /// How many frames, new sessions and pieces of seats reached a running node.
    pub(crate) arrivals: usize,
    /// Nodes, each with its front, and whose deal it has on its table for the hand.
    pub(crate) fronts: &'a [(usize, u32, Option<usize>)],
}

/// The kinds of the frames of a round, as the byte behind a frame's length and version tells them.
const PREPARE: u8 = 1;

const PROMISE: u8 = 2;

const ACCEPT: u8 = 4;

const ACCEPTED: u8 = 5;

/// Asserts that an event is of a cluster's match.
pub(crate) fn assert_for<D: Disk + Drop>(rt: &impl Abort, cluster: &Cluster<D>, event: &Event)
    ensures { IsForMatch (view_of cluster.now).config event.now }
{
    let players = cluster.config().game().players();
    assert!(rt; event.is_for(cluster.node_count(), players));
}

/// Gives an event to its node. Here alone a step is taken, so that its contract is read once.
pub(crate) fn give<D: Disk + Drop>(
    rt: &impl Abort,
    cluster: &mut Cluster<D>,
    event: &Event,
) -> Result<(), NodeFault> {
    assert_for(rt, cluster, event);
    cluster.step(event)
}

/// The delivery of the frame of this number, counted from 0 in the order of sending.
fn delivery<D: Disk + Drop>(
    rt: &impl Abort,
    alloc: Global,
    cluster: &Cluster<D>,
    number: usize,
) -> Result<Event, AllocError> {
    let frame = cluster.frame(number).expect(rt, "a frame that was sent");
    Ok(Event::Frame {
        from: frame.from,
        to: frame.to,
        bytes: frame.bytes.to_vec(alloc)?,
    })
}

/// Delivers the frame of this number.
fn deliver<D: Disk + Drop>(
    rt: &impl Abort,
    alloc: Global,
    cluster: &mut Cluster<D>,
    number: usize,
) -> Result<(), NodeFault> {
    let event = delivery(rt, alloc, cluster, number)?;
    give(rt, cluster, &event)
}

/// The number of the newest frame of a kind from a node to another; none where there is none.
fn newest<D: Disk + Drop>(cluster: &Cluster<D>, from: u8, to: u8, kind: u8) -> Option<usize> {
    let mut found = None;
    for number in 0..cluster.frame_count() {
        let frame = cluster.frame(number)?;
        if frame.from == from && frame.to == to && frame.bytes.get(5).copied() == Some(kind) {
            found = Some(number);
        }
    }
    found
}

/// Delivers the newest frame of a kind from a node to another.
fn pass<D: Disk + Drop>(
    rt: &impl Abort,
    alloc: Global,
    cluster: &mut Cluster<D>,
    from: u8,
    to: u8,
    kind: u8,
) -> Result<(), NodeFault> {
    let number = newest(cluster, from, to, kind).expect(rt, "a frame of the round");
    deliver(rt, alloc, cluster, number)
}

/// A round of a leader and others.
fn round<D: Disk + Drop>(
    rt: &impl Abort,
    alloc: Global,
    cluster: &mut Cluster<D>,
    leader: u8,
    others: &[u8],
) -> Result<(), NodeFault> {
    give(rt, cluster, &Event::Tick { node: leader })?;
    for kind in [PREPARE, PROMISE, ACCEPT, ACCEPTED] {
        let leads = kind == PREPARE || kind == ACCEPT;
        for other in others.iter() {
            let (from, to) = if leads {
                (leader, *other)
            } else {
                (*other, leader)
            };
            pass(rt, alloc, cluster, from, to, kind)?;
        }
    }
    Ok(())
}

/// Asserts that a frame that was sent is as it is due.
fn assert_sent<D: Disk + Drop>(rt: &impl Abort, cluster: &Cluster<D>, due: &Due<'_>) {
    let (number, way, bytes, _) = *due;
    let frame = cluster.frame(number).expect(rt, "a frame that was sent");
    assert_same(rt, (frame.from, frame.to), way);
    assert_bytes(rt, frame.bytes, bytes);
}

/// Asserts that a frame that reached a running node is as it is due.
fn assert_arrived<D: Disk + Drop>(rt: &impl Abort, cluster: &Cluster<D>, due: &Due<'_>) {
    let (number, (sender, receiver), bytes, sent_before) = *due;
    let arrival = cluster.arrival(number).expect(rt, "a frame that came");
    holds!(rt;
        matches!(arrival.what, What::Frame { from, to } if from == sender && to == receiver)
    );
    assert_bytes(rt, arrival.bytes, bytes);
    assert_same(rt, arrival.sent_before, sent_before);
}

/// Asserts that a node has the deal of this owner, or none.
fn assert_deal(rt: &impl Abort, dealt: Option<&Deal>, owner: Option<usize>) {
    match (dealt, owner) {
        (None, None) => {}
        (Some(dealt), Some(owner)) => holds!(rt; dealt.is_same(&deal(rt, owner))),
        _ => assert!(rt; false),
    }
}

/// Asserts the front of a node, and whose deal it has on its table for the hand.
fn assert_node<D: Disk + Drop>(
    rt: &impl Abort,
    cluster: &Cluster<D>,
    due: &(usize, u32, Option<usize>),
) {
    let (node, front, owner) = *due;
    assert!(rt; node < cluster.node_count());
    let node = cluster.node(node);
    assert_same(rt, node.front(), front);
    assert_deal(rt, node.table().deal(0), owner);
}

/// Asserts what is due of a cluster.
fn assert_due<D: Disk + Drop>(rt: &impl Abort, cluster: &Cluster<D>, course: &Course<'_>) {
    for due in course.sent.iter() {
        assert_sent(rt, cluster, due);
    }
    for due in course.arrived.iter() {
        assert_arrived(rt, cluster, due);
    }
    for due in course.fronts.iter() {
        assert_node(rt, cluster, due);
    }
    assert_same(rt, cluster.arrival_count(), course.arrivals);
}

/// Asserts the log of a start of node 1, counted from 0, which is put behind a word.
fn assert_log<D: Disk + Drop>(
    rt: &impl Abort,
    alloc: Global,
    cluster: &Cluster<D>,
    start: usize,
    due: &[u8],
) -> Result<(), AllocError> {
    let mut log = b"log: ".to_vec(alloc)?;
    cluster.put_log(Begun { node: 1, start }, &mut log)?;
    assert_bytes(rt, &log, due);
    Ok(())
}

/// Asserts both logs of node 1: that of its start is the header, since no hand is over, and that of a start that never
/// was is empty.
fn assert_logs<D: Disk + Drop>(
    rt: &impl Abort,
    alloc: Global,
    cluster: &Cluster<D>,
) -> Result<(), AllocError> {
    assert_log(
        rt,
        alloc,
        cluster,
        0,
        b"log: # name/game/hands m1 l2.game 1\n",
    )?;
    assert_log(rt, alloc, cluster, 1, b"log: ")
}

/// Takes the round of a course, and asserts what is due then.
fn run<D: Disk + Drop>(
    rt: &impl Abort,
    alloc: Global,
    cluster: &mut Cluster<D>,
    course: &Course<'_>,
) -> Result<(), NodeFault> {
    let (leader, others) = course.round;
    round(rt, alloc, cluster, leader, others)?;
    assert_due(rt, cluster, course);
    assert_logs(rt, alloc, cluster)?;
    Ok(())
}

/// A new cluster over these disks.
pub(crate) fn cluster_over<D: Disk + Drop>(
    rt: &impl Abort,
    alloc: Global,
    disks: Vec<D>,
) -> Result<Cluster<D>, NodeFault> {
    let config = one_hand(rt, alloc, disks.len())?;
    assert!(rt; disks.len() == config.nodes());
    Cluster::new(alloc, config, disks)
}

/// A course of a new cluster over these disks: what is due comes of it.
fn run_over<D: Disk + Drop>(
    rt: &impl Abort,
    alloc: Global,
    disks: Vec<D>,
    course: &Course<'_>,
) -> Result<(), NodeFault> {
    let mut cluster = cluster_over(rt, alloc, disks)?;
    run(rt, alloc, &mut cluster, course)
}

/// So many disks in memory that never fail.
pub(crate) fn disks(alloc: Global, nodes: usize) -> Result<Vec<OnceDisk>, AllocError> {
    let mut disks = Vec::new(alloc);
    for _ in 0..nodes {
        disks.push(OnceDisk::new(alloc, 0))?;
    }
    Ok(disks)
}

/// A course of a new cluster over disks in memory that never fail: what is due comes of it.
pub(crate) fn assert_course(
    rt: &impl Abort,
    alloc: Global,
    course: &Course<'_>,
) -> Result<(), Fail> {
    let disks = disks(alloc, course.nodes)?;
    Ok(run_over(rt, alloc, disks, course)?)
}
