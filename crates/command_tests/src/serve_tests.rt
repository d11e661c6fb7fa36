//! `serve_run` over links and disks in memory: the notes of a match, of what fails in it, and of whom it waits for.

use crate::slow_links::SlowLinks;
use crate::test_streams::{config, holds, is_same, is_written, prints};
use dealer_node::NodeFault;
use dealer_world::Cluster;
use match_file::{Absent, Outage};
use match_links::{Links, MemoryLinks, Reached};
use match_runs::{Conclusion, Unserved, serve_run};
use operator_notes::SeatPorts;
use promise_store::{Disk, OnceDisk};
use serving::{Outages, ServeFault, Server};
use std::alloc::{AllocError, Global};
use std::io::Write;
use std::process::Abort;
use std::test::Fail;

/// The seats' ports go node by node from this one on.
const PORTS: SeatPorts = SeatPorts {
    first: 2000,
    players: 2,
};

const VERSION: &[u8] = b"VERSION:2.0.0\r\n";

/// What bob's bot sends: a line that isn't the one of now, and then it folds.
const BOB: &[u8] = b"VERSION:2.0.0\r\nMATCHSTATE:1:0:c:|8hTc:f\r\nMATCHSTATE:1:0::|8hTc:f\r\n";

const NOTES: &[u8] = b"seat 0 (alice) not connected: expected at node 0, port 2000
seat 0 (alice) at node 0: seated
seat 1 (bob) not connected: expected at node 0, port 2001
seat 1 (bob) at node 0: seated
node 0: stopped
seat 1 (bob) not connected: expected at node 1, port 2003
seat 1 (bob) at node 1: seated
seat 1 (bob) at node 1, hand 0: f: 83 NotCurrent
SCORE:5|-5:alice|bob
";

/// For how many calls each wait of the match in which node 0 is lost is slow: those for both seats' connections and first
/// lines at node 0, those for bob's at node 1, and those for his two answers there.
static WAITS: [u64; 8] = [24, 11, 12, 0, 23, 1, 25, 1];

/// Of the waits in a row the first is told, and each twelfth; with a line only where the seat was shown one at that node.
const WAITING_NOTES: &[u8] = b"seat 0 (alice) not connected: expected at node 0, port 2000
waiting for seat 0 (alice) at node 0, port 2000
waiting for seat 0 (alice) at node 0, port 2000
waiting for seat 0 (alice) at node 0, port 2000
seat 0 (alice) at node 0: seated
waiting for seat 0 (alice) at node 0, port 2000
seat 1 (bob) not connected: expected at node 0, port 2001
waiting for seat 1 (bob) at node 0, port 2001
waiting for seat 1 (bob) at node 0, port 2001
seat 1 (bob) at node 0: seated
node 0: stopped
seat 1 (bob) not connected: expected at node 1, port 2003
waiting for seat 1 (bob) at node 1, port 2003
waiting for seat 1 (bob) at node 1, port 2003
seat 1 (bob) at node 1: seated
waiting for seat 1 (bob) at node 1, port 2003
waiting for seat 1 (bob) at node 1, port 2003, to answer MATCHSTATE:1:0::|8hTc
waiting for seat 1 (bob) at node 1, port 2003, to answer MATCHSTATE:1:0::|8hTc
waiting for seat 1 (bob) at node 1, port 2003, to answer MATCHSTATE:1:0::|8hTc
seat 1 (bob) at node 1, hand 0: f: 83 NotCurrent
waiting for seat 1 (bob) at node 1, port 2003, to answer MATCHSTATE:1:0::|8hTc
SCORE:5|-5:alice|bob
";

/// What alice's bot sends where both raise: after the third raise one more, and then it folds.
const RAISING_ALICE: &[u8] = b"VERSION:2.0.0\r
MATCHSTATE:0:0:r:TdAs|:r\r
MATCHSTATE:0:0:rrr:TdAs|:r\r
MATCHSTATE:0:0:rrr:TdAs|:f\r
";

/// What bob's sends: his first answer twice.
const RAISING_BOB: &[u8] = b"VERSION:2.0.0\r
MATCHSTATE:1:0::|8hTc:r\r
MATCHSTATE:1:0::|8hTc:r\r
MATCHSTATE:1:0:rr:|8hTc:r\r
";

const RAISING_NOTES: &[u8] = b"seat 0 (alice) not connected: expected at node 0, port 2000
seat 0 (alice) at node 0: seated
seat 1 (bob) not connected: expected at node 0, port 2001
seat 1 (bob) at node 0: seated
seat 1 (bob) at node 0, hand 0: r: 83 NotCurrent (answers an earlier line)
seat 0 (alice) at node 0, hand 0: r: 85 Illegal 22 TooManyRaises
SCORE:-30|30:alice|bob
";

const REPAIR: &[u8] = b"node 0: 91 Store 63 Disk
node 0: stopped
node 0: started
";

/// The disks of three nodes; the call of the first one's of this number fails, counted from 1.
fn disks(alloc: Global, call: u64) -> Result<Vec<OnceDisk>, AllocError> {
    let mut disks = Vec::new(alloc);
    for node in 0..3 {
        let call = if node == 0 { call } else { 0 };
        disks.push(OnceDisk::new(alloc, call))?;
    }
    Ok(disks)
}

/// A server of a new cluster over these disks; none where a node or a log refuses.
fn server<D: Disk + Drop, L: Links + Drop>(
    rt: &impl Abort,
    alloc: Global,
    disks: Vec<D>,
    links: L,
    outages: Outages,
) -> Result<Option<Server<D, L>>, Fail> {
    let config = config(alloc)?;
    assert!(rt; disks.len() == config.nodes());
    let Ok(cluster) = Cluster::new(alloc, config, disks) else {
        return Ok(None);
    };
    Ok(Server::new(alloc, cluster, links, outages, Absent::Wait).ok())
}

/// Serves a match: how that ends. Here alone `serve_run` is called, so that its contract is read once.
fn ran<D: Disk + Drop, L: Links + Drop, W: Write>(
    alloc: Global,
    server: &mut Server<D, L>,
    notes: &mut W,
) -> Result<(), ServeFault> {
    serve_run(alloc, server, PORTS, notes)
}

/// Both seats' bots call at each node.
fn call_everywhere(links: &mut MemoryLinks) -> Result<(), AllocError> {
    for node in 0..3 {
        links.call(node, 0, VERSION)?;
        links.call(node, 1, BOB)?;
    }
    Ok(())
}

/// Both seats' bots at each node, twice; the call of a link of this number fails, counted from 1.
fn links(alloc: Global, call: u64) -> Result<MemoryLinks, AllocError> {
    let mut links = MemoryLinks::new(alloc, 3, call)?;
    call_everywhere(&mut links)?;
    call_everywhere(&mut links)?;
    Ok(links)
}

/// One bot of alice's at node 0, and two of bob's: one at node 0, which only greets, and one at node 1.
fn few_links(alloc: Global) -> Result<MemoryLinks, AllocError> {
    let mut links = MemoryLinks::new(alloc, 3, 0)?;
    links.call(0, 0, VERSION)?;
    links.call(0, 1, VERSION)?;
    links.call(1, 1, BOB)?;
    Ok(links)
}

/// Node 0 stops at the first command, for good.
fn one_outage(alloc: Global) -> Result<Outages, AllocError> {
    let node_0 = Outage {
        node: 0,
        at: 1,
        back: None,
    };
    Ok(Outages::new(vec![in alloc; node_0]?))
}

/// What came of a match that was served.
#[derive(Drop)]
struct Course {
    ended: Result<(), ServeFault>,
    /// How many calls of node 0's disk failed.
    failures: u64,
    /// What the one call of a link that failed was to reach; none where none did.
    failed: Option<Reached>,
    notes: Vec<u8>,
}

/// How many calls of node 0's disk failed.
fn failures<D: Disk + Drop, L: Links + Drop>(rt: &impl Abort, server: &Server<D, L>) -> u64 {
    let cluster = server.cluster();
    assert!(rt; cluster.node_count() > 0);
    cluster.node(0).failures()
}

/// What comes of a match that this server serves.
fn course_of<D: Disk + Drop>(
    rt: &impl Abort,
    alloc: Global,
    server: &mut Server<D, MemoryLinks>,
) -> Course {
    let mut notes = Vec::new(alloc);
    let ended = ran(alloc, server, &mut notes);
    Course {
        ended,
        failures: failures(rt, server),
        failed: server.links().failed(),
        notes,
    }
}

/// Serves a match over these disks and links to its end; none where no server could be made.
fn serve<D: Disk + Drop>(
    rt: &impl Abort,
    alloc: Global,
    disks: Vec<D>,
    links: MemoryLinks,
    outages: Outages,
) -> Result<Option<Course>, Fail> {
    match server(rt, alloc, disks, links, outages)? {
        None => Ok(None),
        Some(mut server) => Ok(Some(course_of(rt, alloc, &mut server))),
    }
}

/// What comes of the match in which node 0 is lost and bob has two bots.
fn served_without_node_0(rt: &impl Abort, alloc: Global) -> Result<Option<Course>, Fail> {
    let disks = disks(alloc, 0)?;
    let links = few_links(alloc)?;
    serve(rt, alloc, disks, links, one_outage(alloc)?)
}

/// Sees that a match was served to its end, and told so.
fn is_told(rt: &impl Abort, course: &Course, notes: &[u8]) {
    holds(rt, 0, course.ended.is_ok());
    is_written(rt, &course.notes, notes);
}

#[test]
fn a_served_match_is_told_in_notes(rt: HostRuntime) -> Result<(), Fail> {
    let course = served_without_node_0(&rt, rt.alloc())?.expect(&rt, "a server");
    is_told(&rt, &course, NOTES);
    Ok(())
}

/// Both seats' bots at node 0, which raise.
fn raising_links(alloc: Global) -> Result<MemoryLinks, AllocError> {
    let mut links = MemoryLinks::new(alloc, 3, 0)?;
    links.call(0, 0, RAISING_ALICE)?;
    links.call(0, 1, RAISING_BOB)?;
    Ok(links)
}

/// What comes of the match in which both seats raise.
fn served_raising(rt: &impl Abort, alloc: Global) -> Result<Option<Course>, Fail> {
    let disks = disks(alloc, 0)?;
    let links = raising_links(alloc)?;
    serve(rt, alloc, disks, links, Outages::new(Vec::new(alloc)))
}

/// Of a refused answer the hand and the action are told, and of one that isn't current whether its line was once.
#[test]
fn refused_answers_are_told_with_their_actions(rt: HostRuntime) -> Result<(), Fail> {
    let course = served_raising(&rt, rt.alloc())?.expect(&rt, "a server");
    is_told(&rt, &course, RAISING_NOTES);
    Ok(())
}

/// The notes of the match in which node 0 is lost and seats are waited for; none where it isn't served to its end.
fn noted_waiting(rt: &impl Abort, alloc: Global) -> Result<Option<Vec<u8>>, Fail> {
    let disks = disks(alloc, 0)?;
    let links = SlowLinks::new(few_links(alloc)?, &WAITS);
    let Some(mut server) = server(rt, alloc, disks, links, one_outage(alloc)?)? else {
        return Ok(None);
    };
    let mut notes = Vec::new(alloc);
    let ended = ran(alloc, &mut server, &mut notes);
    Ok(ended.is_ok().then_some(notes))
}

/// A seat that keeps all waiting is told again and again, and that it is awaited once.
#[test]
fn a_silent_seat_is_told(rt: HostRuntime) -> Result<(), Fail> {
    let notes = noted_waiting(&rt, rt.alloc())?.expect(&rt, "a match that is served");
    is_written(&rt, &notes, WAITING_NOTES);
    Ok(())
}

/// What comes of a match in which the call of node 0's disk, or of a link, of this number fails, counted from 1; with 0
/// none does. None where no server could be made.
fn served_failing(
    rt: &impl Abort,
    alloc: Global,
    disk_call: u64,
    link_call: u64,
) -> Result<Option<Course>, Fail> {
    let disks = disks(alloc, disk_call)?;
    let links = links(alloc, link_call)?;
    serve(rt, alloc, disks, links, Outages::new(Vec::new(alloc)))
}

/// Whether a part stands in a text.
fn has(text: &[u8], part: &[u8]) -> bool {
    (0..text.len()).any(|place| text[place..].starts_with(part))
}

/// Where the call failed that was to.
#[derive(Clone, Copy)]
enum Failing {
    /// Before the match: no server could be made.
    Before,
    /// In the match, which told so.
    Told,
    /// In the match, which was served to its end.
    Passed,
    /// Nowhere: so many calls weren't made.
    Nowhere,
}

/// Counts a match in which a call was to fail, where that was told: whether another is to fail. Up to the first call that
/// isn't made at least so many were told.
fn goes_on(rt: &impl Abort, failing: Failing, told: &mut u32, least: u32) -> bool {
    match failing {
        Failing::Before | Failing::Passed => true,
        Failing::Told => {
            *told = told.saturating_add(1);
            true
        }
        Failing::Nowhere => {
            assert!(rt; *told >= least);
            false
        }
    }
}

/// Whether a match was served to its end, and its score told.
fn is_served(course: &Course) -> bool {
    course.ended.is_ok() && course.notes.ends_with(b"\nSCORE:5|-5:alice|bob\n")
}

/// Sees that a match was served to its end, and that its notes tell of a store that was repaired where a call of its disk
/// failed.
fn tells_repair(rt: &impl Abort, call: u64, course: &Course) -> Failing {
    let has_failed = course.failures > 0;
    holds(rt, call, is_served(course));
    holds(rt, call, has(&course.notes, REPAIR) == has_failed);
    holds(rt, call, has(&course.notes, b"91 Store") == has_failed);
    if has_failed {
        Failing::Told
    } else {
        Failing::Nowhere
    }
}

/// Serves a match to its end, though the call of a disk of this number fails: where that was.
fn fails_in_store(rt: &impl Abort, alloc: Global, call: u64) -> Result<Failing, Fail> {
    match served_failing(rt, alloc, call, 0)? {
        None => Ok(Failing::Before),
        Some(course) => Ok(tells_repair(rt, call, &course)),
    }
}

/// Each call of a disk fails in turn, up to the first that isn't made: a store appends at least once, which takes four.
#[test]
fn a_store_that_fails_once_is_told(rt: HostRuntime) -> Result<(), Fail> {
    let mut told = 0;
    for call in 1..1_000u64 {
        let failing = fails_in_store(&rt, rt.alloc(), call)?;
        if !goes_on(&rt, failing, &mut told, 4) {
            return Ok(());
        }
    }
    panic!(rt; "calls without end")
}

/// Sees that a match whose call of a link failed ended without a score where that was a call of a log: what it reached.
fn tells_lost_log(rt: &impl Abort, call: u64, course: &Course) -> Failing {
    match course.failed {
        None => {
            holds(rt, call, is_served(course));
            Failing::Nowhere
        }
        Some(Reached::Log) => {
            holds(rt, call, course.ended == Err(ServeFault::LogFailed));
            holds(rt, call, !has(&course.notes, b"SCORE"));
            Failing::Told
        }
        Some(_) => Failing::Passed,
    }
}

/// Serves a match of whose links the call of this number fails: where that was, and whether it was a call of a log.
fn fails_in_log(rt: &impl Abort, alloc: Global, call: u64) -> Result<Failing, Fail> {
    match served_failing(rt, alloc, 0, call)? {
        None => Ok(Failing::Before),
        Some(course) => Ok(tells_lost_log(rt, call, &course)),
    }
}

/// Each call of a link fails in turn, up to the first that isn't made: each of three nodes logs the match's end.
#[test]
fn a_log_that_fails_ends_serve(rt: HostRuntime) -> Result<(), Fail> {
    let mut told = 0;
    for call in 1..1_000u64 {
        let failing = fails_in_log(&rt, rt.alloc(), call)?;
        if !goes_on(&rt, failing, &mut told, 3) {
            return Ok(());
        }
    }
    panic!(rt; "calls without end")
}

/// Sees that a fault of a server ends the program with status 1, and prints this.
fn concludes(rt: &impl Abort, alloc: Global, why: Unserved, text: &str) -> Result<(), AllocError> {
    let conclusion: Conclusion = why.conclusion();
    is_same(rt, conclusion.status(), 1);
    prints(rt, alloc, &conclusion, text)
}

#[test]
fn faults_of_a_server_end_the_program_with_status_1(rt: HostRuntime) -> Result<(), Fail> {
    let alloc = rt.alloc();
    let spent = ServeFault::Node(NodeFault::Spent);
    is_same(&rt, ServeFault::LogFailed.code(), 106);
    is_same(&rt, spent.code(), 93);
    concludes(&rt, alloc, AllocError.into(), "92 OutOfMemory")?;
    concludes(&rt, alloc, ServeFault::LogFailed.into(), "106 LogFailed")?;
    concludes(&rt, alloc, spent.into(), "93 Spent")?;
    Ok(())
}
