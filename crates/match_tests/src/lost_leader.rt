//! What the record has of the match in which node 0, which leads, is lost after the first deal.

use crate::samples::{assert_bytes, assert_same, holds};
use dealer_world::{Cluster, What};
use promise_store::Disk;
use std::process::Abort;

/// Bob's fold of the first hand, which a node passes on to the leader that it knows.
const FORWARD: &[u8] = b"\x00\x00\x00\x0e\x02\x08\x02\x00\x00\x00\x00\x00\x00\x00\x00\x00\x00\x00";

/// Node 1 asks for a promise of (2, 1) at slot 1.
const PREPARE_OF_NODE_1: &[u8] = b"\x00\x00\x00\x0b\x02\x01\x00\x00\x00\x02\x01\x00\x00\x00\x01";

/// The number of the first frame of these bytes from node 1 to node 0; none where there is none.
fn sent_to_node_0<D: Disk + Drop>(cluster: &Cluster<D>, bytes: &[u8]) -> Option<usize> {
    for number in 0..cluster.frame_count() {
        let frame = cluster.frame(number)?;
        if frame.from == 1 && frame.to == 0 && is_same(frame.bytes, bytes) {
            return Some(number);
        }
    }
    None
}

/// Whether a frame of these bytes from node 1 reached a node.
fn reached<D: Disk + Drop>(cluster: &Cluster<D>, node: u8, bytes: &[u8]) -> bool {
    for number in 0..cluster.arrival_count() {
        if let Some(arrival) = cluster.arrival(number) {
            if is_from_node_1(arrival.what, node) && is_same(arrival.bytes, bytes) {
                return true;
            }
        }
    }
    false
}

/// Whether it is a frame from node 1 to this node.
fn is_from_node_1(what: What, node: u8) -> bool {
    match what {
        What::Frame { from, to } => from == 1 && to == node,
        _ => false,
    }
}

fn is_same(bytes: &[u8], others: &[u8]) -> bool {
    bytes == others
}

/// Asserts that a frame of node 1 was sent under this number.
fn assert_sent<D: Disk + Drop>(
    rt: &impl Abort,
    cluster: &Cluster<D>,
    number: usize,
    to: u8,
    bytes: &[u8],
) {
    let frame = cluster.frame(number).expect(rt, "a frame that was sent");
    assert_same(rt, (frame.from, frame.to), (1, to));
    assert_bytes(rt, frame.bytes, bytes);
}

/// Asserts that node 1 passed bob's fold on to node 0, which is down, so that it was lost there; and that the next frames
/// are those of a tick of node 1, which asks for promises of the next round.
pub(crate) fn assert_forward_lost<D: Disk + Drop>(rt: &impl Abort, cluster: &Cluster<D>) {
    let number = sent_to_node_0(cluster, FORWARD).expect(rt, "the fold is passed on");
    assert!(rt; number < usize::MAX - 2);
    assert_sent(rt, cluster, number + 1, 0, PREPARE_OF_NODE_1);
    assert_sent(rt, cluster, number + 2, 2, PREPARE_OF_NODE_1);
    holds!(rt; !reached(cluster, 0, FORWARD));
    holds!(rt; reached(cluster, 2, PREPARE_OF_NODE_1));
}
