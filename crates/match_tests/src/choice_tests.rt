use crate::rounds::{Course, assert_course};
use crate::samples::{ACCEPT, ACCEPTED, PREPARE, PROMISE};
use std::test::Fail;

/// The first round of node 0 with node 1: its frames by their numbers among all that are sent, and among those that reach
/// a node, each with how many had been sent before.
static STEPWISE: Course<'_> = Course {
    nodes: 3,
    round: (0, &[1]),
    sent: &[
        (0, (0, 1), PREPARE, 0),
        (2, (1, 0), PROMISE, 0),
        (3, (0, 1), ACCEPT, 0),
        (7, (1, 0), ACCEPTED, 0),
    ],
    arrived: &[
        (0, (0, 1), PREPARE, 2),
        (1, (1, 0), PROMISE, 3),
        (2, (0, 1), ACCEPT, 7),
        (3, (1, 0), ACCEPTED, 9),
    ],
    arrivals: 4,
    fronts: &[(0, 1, Some(0)), (1, 0, None)],
};

/// On three nodes at rest a tick and four deliveries move the ticking node one slot on. The record says what reached the
/// nodes, and how many frames had been sent before.
#[test]
fn a_tick_and_four_deliveries_deal(rt: HostRuntime) -> Result<(), Fail> {
    assert_course(&rt, rt.alloc(), &STEPWISE)
}
