use crate::course::{
    ALICE, BOB, Course, Ending, VERSION, assert_logged, bots_everywhere, course_of, disks,
    logs_without, no_outages, outage, play, server,
};
use crate::lost_leader::assert_forward_lost;
use crate::samples::{assert_bytes, assert_holds, assert_same, holds};
use dealer_node::NodeFault;
use match_links::{MemoryLinks, Reached};
use promise_store::OnceDisk;
use serving::{Outages, ServeFault, Server};
use std::alloc::{AllocError, Global};
use std::process::Abort;
use std::test::Fail;

/// What the seats are told where node 0 is lost after the first deal: bob comes to node 1 and folds the first hand,
/// alice comes there for the second and folds it.
const TOLD: &[u8] = b"0 0 MATCHSTATE:0:0::TdAs|
0 1 MATCHSTATE:1:0::|8hTc
1 1 MATCHSTATE:1:0::|8hTc
1 1 MATCHSTATE:1:0:f:|8hTc
1 1 MATCHSTATE:0:1::2d2h|
1 0 MATCHSTATE:1:1::|3d3s
1 0 MATCHSTATE:1:1:f:|3d3s
1 1 MATCHSTATE:0:1:f:2d2h|
";

/// What the seats are told where both stay at node 0: each deal and each fold, alice before bob.
pub(crate) const TOLD_AT_NODE_0: &[u8] = b"0 0 MATCHSTATE:0:0::TdAs|
0 1 MATCHSTATE:1:0::|8hTc
0 0 MATCHSTATE:0:0:f:TdAs|
0 1 MATCHSTATE:1:0:f:|8hTc
0 0 MATCHSTATE:1:1::|3d3s
0 1 MATCHSTATE:0:1::2d2h|
0 0 MATCHSTATE:1:1:f:|3d3s
0 1 MATCHSTATE:0:1:f:2d2h|
";

/// Both seats call node 0, and then node 1.
fn bots_of_two_nodes(alloc: Global) -> Result<MemoryLinks, AllocError> {
    let mut links = MemoryLinks::new(alloc, 3, 0)?;
    links.call(0, 0, VERSION)?;
    links.call(0, 1, VERSION)?;
    links.call(1, 1, BOB)?;
    links.call(1, 0, ALICE)?;
    Ok(links)
}

/// A match of which a call of a node's disk, or of a link, fails; none where no server could be made.
fn played(
    rt: &impl Abort,
    alloc: Global,
    failing: (usize, u64),
    links: MemoryLinks,
    outages: Outages,
) -> Result<Option<Course>, AllocError> {
    play(
        rt,
        alloc,
        disks(alloc, failing.0, failing.1)?,
        links,
        outages,
    )
}

/// The same where both seats' bots are at each node and no link fails, without outages.
fn played_everywhere(
    rt: &impl Abort,
    alloc: Global,
    failing: (usize, u64),
) -> Result<Option<Course>, AllocError> {
    let links = bots_everywhere(alloc, 0)?;
    played(rt, alloc, failing, links, no_outages(alloc))
}

/// The same where node 1 is out from the first command to the second; the call of a link of this number fails too.
fn played_about_an_outage(
    rt: &impl Abort,
    alloc: Global,
    failing: (usize, u64),
    call: u64,
) -> Result<Option<Course>, AllocError> {
    let outages = outage(alloc, 1, 1, Some(2))?;
    let links = bots_everywhere(alloc, call)?;
    played(rt, alloc, failing, links, outages)
}

/// Where nothing fails the match is played at node 0, and each seat is told all there. `tests/serve_growths` runs this
/// test and refuses it memory: a turn that finds none is taken again, and drops no seat; a node whose disk finds none is
/// started again.
#[test]
fn a_match_is_played_to_its_end(rt: HostRuntime) -> Result<(), Fail> {
    match played_everywhere(&rt, rt.alloc(), (0, 0))? {
        None => Err(Fail::from(NodeFault::OutOfMemory)),
        Some(course) => {
            assert_mended(&rt, &course, 0);
            assert_stayed(&rt, &course);
            Ok(())
        }
    }
}

/// Asserts that both seats stayed at node 0, where no disk failed.
fn assert_stayed(rt: &impl Abort, course: &Course) {
    if course.failures == 0 {
        assert_bytes(rt, course.told.as_slice(), TOLD_AT_NODE_0);
    }
}

/// Asserts that the match is over and wholly logged, and that a node was started for each call of a disk that failed.
pub(crate) fn assert_mended(rt: &impl Abort, course: &Course, call: u64) {
    let is_mended = match course.ending {
        Ending::Over { starts } => starts == course.failures,
        Ending::Refused(_) | Ending::Never => false,
    };
    assert_holds(rt, call, is_mended);
    assert_logged(rt, course, call);
}

/// What comes of the match in which node 0 is lost after the first deal, and both seats go to node 1; its record has the
/// fold that was lost with node 0.
fn outlived(
    rt: &impl Abort,
    alloc: Global,
    server: &mut Server<OnceDisk, MemoryLinks>,
) -> Result<Course, AllocError> {
    let course = course_of(rt, alloc, server)?;
    assert_forward_lost(rt, server.cluster());
    Ok(course)
}

/// The same; none where no server could be made.
fn played_without_node_0(rt: &impl Abort, alloc: Global) -> Result<Option<Course>, AllocError> {
    let outages = outage(alloc, 0, 1, None)?;
    let links = bots_of_two_nodes(alloc)?;
    let disks = disks(alloc, 0, 0)?;
    match server(rt, alloc, disks, links, outages)? {
        None => Ok(None),
        Some(mut server) => Ok(Some(outlived(rt, alloc, &mut server)?)),
    }
}

/// Asserts that the match is over without a start, and that it was told and logged as it is without node 0.
fn assert_outlived(rt: &impl Abort, alloc: Global, course: &Course) -> Result<(), AllocError> {
    holds!(rt; matches!(course.ending, Ending::Over { starts: 0 }));
    assert_bytes(rt, course.told.as_slice(), TOLD);
    assert_bytes(
        rt,
        course.logs.as_slice(),
        logs_without(alloc, 0)?.as_slice(),
    );
    Ok(())
}

/// Node 0, which leads, is lost after the first deal; both seats go to node 1, which leads from then on, and the match is
/// played there to its end.
#[test]
fn a_match_outlives_a_node(rt: HostRuntime) -> Result<(), Fail> {
    let alloc = rt.alloc();
    let course = played_without_node_0(&rt, alloc)?.expect(&rt, "a server");
    Ok(assert_outlived(&rt, alloc, &course)?)
}

/// Asserts that the match is over and wholly logged.
fn assert_over(rt: &impl Abort, course: &Course, call: u64) {
    assert_holds(rt, call, matches!(course.ending, Ending::Over { .. }));
    assert_logged(rt, course, call);
}

/// Asserts that a match was ended by this fault.
fn assert_refused(rt: &impl Abort, course: &Course, call: u64, due: ServeFault) {
    let is_due = match course.ending {
        Ending::Refused(fault) => fault == due,
        Ending::Over { .. } | Ending::Never => false,
    };
    assert_holds(rt, call, is_due);
}

/// Asserts how a match ended whose links' call failed: a seat's link that fails ends no match; one between nodes or to
/// a port is 105, one to a log 106. What that call was to reach.
pub(crate) fn assert_ended(rt: &impl Abort, course: &Course, call: u64) -> Option<Reached> {
    match course.failed {
        None | Some(Reached::Seat) => assert_over(rt, course, call),
        Some(Reached::Peer | Reached::Ports) => {
            assert_refused(rt, course, call, ServeFault::LinkFailed);
        }
        Some(Reached::Log) => assert_refused(rt, course, call, ServeFault::LogFailed),
    }
    course.failed
}

/// A match whose links' call of this number fails, counted from 1: what that call was to reach.
fn fails_at(rt: &impl Abort, alloc: Global, call: u64) -> Result<Option<Reached>, AllocError> {
    match played_about_an_outage(rt, alloc, (0, 0), call)? {
        // (the only fault of a new server, by its contract)
        None => Ok(Some(Reached::Log)),
        Some(course) => Ok(assert_ended(rt, &course, call)),
    }
}

/// A bit for each kind of link.
fn bit(reached: Reached) -> u8 {
    match reached {
        Reached::Seat => 1,
        Reached::Peer => 2,
        Reached::Ports => 4,
        Reached::Log => 8,
    }
}

/// Each call of a link fails in turn, up to the first that isn't made; each kind of link is met. What the call of a number
/// was to reach, in a match of its own, the closure says.
pub(crate) fn each_link_fails<F: Fn(u64) -> Result<Option<Reached>, AllocError>>(
    rt: &impl Abort,
    fails_at: F,
) -> Result<(), AllocError>
    requires { F.IsAlwaysCallable fails_at }
{
    let mut met = 0u8;
    for call in 1..2_000u64 {
        let Some(reached) = fails_at(call)? else {
            assert_same(rt, met, 15);
            return Ok(());
        };
        met |= bit(reached);
    }
    panic!(rt; "calls without end")
}

/// Where a seat's link fails, the seat goes to the next node and the match to its end.
#[test]
fn each_call_of_a_link_fails_in_turn(rt: HostRuntime) -> Result<(), Fail> {
    let alloc = rt.alloc();
    each_link_fails(&rt, |call| fails_at(&rt, alloc, call))?;
    Ok(())
}

/// Where the call of a disk failed that was to.
#[derive(Clone, Copy)]
enum Failing {
    /// Before the match: no server could be made.
    Before,
    /// In the match.
    Within,
    /// Nowhere: so many calls weren't made.
    Nowhere,
}

/// Where the call of a disk failed, of which this came.
fn failed_in(course: &Course) -> Failing {
    if course.failures == 0 {
        Failing::Nowhere
    } else {
        Failing::Within
    }
}

/// A match in which this call of a node's disk fails. Where that is after the cluster was made, the node is stopped and
/// started, once.
fn fails_once(
    rt: &impl Abort,
    alloc: Global,
    node: usize,
    call: u64,
) -> Result<Failing, AllocError> {
    match played_everywhere(rt, alloc, (node, call))? {
        None => Ok(Failing::Before),
        Some(course) => {
            assert_mended(rt, &course, call);
            Ok(failed_in(&course))
        }
    }
}

/// The same where node 1 is out from the first command to the second, and it is a call of its disk.
fn fails_about_an_outage(rt: &impl Abort, alloc: Global, call: u64) -> Result<Failing, AllocError> {
    match played_about_an_outage(rt, alloc, (1, call), 0)? {
        None => Ok(Failing::Before),
        Some(course) => {
            assert_over(rt, &course, call);
            Ok(failed_in(&course))
        }
    }
}

/// Counts a call that failed in a match: whether another is to fail. Up to the first that isn't made at least four did,
/// since a node promises at least once, which is one append.
fn goes_on(rt: &impl Abort, failing: Failing, within: &mut u32) -> bool {
    match failing {
        Failing::Before => true,
        Failing::Within => {
            *within = within.saturating_add(1);
            true
        }
        Failing::Nowhere => {
            holds!(rt; *within >= 4);
            false
        }
    }
}

/// Each call of a disk fails in turn, up to the first that isn't made. Where the call of a number failed, in a match of its
/// own, the closure says.
fn fails_in_turn<F: Fn(u64) -> Result<Failing, AllocError>>(
    rt: &impl Abort,
    fails_once: F,
) -> Result<(), AllocError>
    requires { F.IsAlwaysCallable fails_once }
{
    let mut within = 0;
    for call in 1..1_000u64 {
        let failing = fails_once(call)?;
        if !goes_on(rt, failing, &mut within) {
            return Ok(());
        }
    }
    panic!(rt; "calls without end")
}

/// A node whose disk fails once is stopped and started, and the match goes on.
#[test]
fn each_call_of_a_disk_fails_in_turn(rt: HostRuntime) -> Result<(), Fail> {
    let alloc = rt.alloc();
    for node in 0..3 {
        fails_in_turn(&rt, |call| fails_once(&rt, alloc, node, call))?;
    }
    Ok(())
}

/// Node 1 is out from the first command to the second, and its disk fails once: in its start after the outage too.
#[test]
fn each_call_of_a_disk_fails_about_an_outage(rt: HostRuntime) -> Result<(), Fail> {
    let alloc = rt.alloc();
    fails_in_turn(&rt, |call| fails_about_an_outage(&rt, alloc, call))?;
    Ok(())
}
