//! A match of two hands that is served, and what came of it.

use crate::samples::{assert_bytes, assert_bytes_of, assert_holds, holds, two_hands};
use dealer_node::NodeFault;
use dealer_world::Cluster;
use match_file::{Absent, Outage};
use match_links::{Links, MemoryLinks, Reached, Told};
use promise_store::{Disk, OnceDisk};
use serving::{Outages, Place, ServeFault, Server, Turn};
use std::alloc::{AllocError, Global};
use std::process::Abort;

/// The header of a log of the match.
const HEADER: &[u8] = b"# name/game/hands m1 l2.game 2\n";

/// The log of the match where bob folds the first hand and alice the second.
const LOG: &[u8] = b"# name/game/hands m1 l2.game 2
STATE:0:f:TdAs|8hTc:5|-5:alice|bob
STATE:1:f:2d2h|3d3s:5|-5:bob|alice
SCORE:0|0:alice|bob
";

/// The logs of three nodes where one is lost after the first deal: of that node the header alone.
pub(crate) fn logs_without(alloc: Global, lost: usize) -> Result<Vec<u8>, AllocError> {
    let mut logs = Vec::new(alloc);
    for node in 0..3 {
        logs.extend_from_slice(if node == lost { HEADER } else { LOG })?;
    }
    Ok(logs)
}

/// What a bot sends first.
pub(crate) const VERSION: &[u8] = b"VERSION:2.0.0\r\n";

/// What bob's bot sends where he folds the first hand.
pub(crate) const BOB: &[u8] = b"VERSION:2.0.0\r\nMATCHSTATE:1:0::|8hTc:f\r\n";

/// What alice's bot sends where she folds the second.
pub(crate) const ALICE: &[u8] = b"VERSION:2.0.0\r\nMATCHSTATE:1:1::|3d3s:f\r\n";

/// How many turns a match of these tests takes at most.
pub(crate) const TURNS: u32 = 10_000;

/// How a match ended.
#[derive(Clone, Copy)]
pub(crate) enum Ending {
    /// It was over; so many turns started a node.
    Over { starts: u64 },
    /// By this fault.
    Refused(ServeFault),
    /// It wasn't over after `TURNS` turns.
    Never,
}

/// Asserts that a new server awaits seats at node 0, and no seat beyond them.
pub(crate) fn assert_places<D: Disk + Drop, L: Links + Drop>(
    rt: &impl Abort,
    server: &Server<D, L>,
) {
    holds!(rt; server.place(0) == Some(Place::Awaited(0)));
    holds!(rt; server.place(2).is_none());
}

/// A server of a new cluster over these disks, which waits for seats that were dropped; none where a node or a log
/// refuses.
pub(crate) fn server<D: Disk + Drop, L: Links + Drop>(
    rt: &impl Abort,
    alloc: Global,
    disks: Vec<D>,
    links: L,
    outages: Outages,
) -> Result<Option<Server<D, L>>, AllocError> {
    server_that(rt, alloc, disks, links, outages, Absent::Wait)
}

/// The same, with this choice of what is done about them.
pub(crate) fn server_that<D: Disk + Drop, L: Links + Drop>(
    rt: &impl Abort,
    alloc: Global,
    disks: Vec<D>,
    links: L,
    outages: Outages,
    absent: Absent,
) -> Result<Option<Server<D, L>>, AllocError> {
    let config = two_hands(rt, alloc)?;
    assert!(rt; disks.len() == config.nodes());
    let Ok(cluster) = Cluster::new(alloc, config, disks) else {
        return Ok(None);
    };
    Ok(Server::new(alloc, cluster, links, outages, absent).ok())
}

/// What a turn answers.
pub(crate) type Answer = Result<Turn, ServeFault>;

/// A turn of a server. Here alone one is taken, so that its contract is read once.
pub(crate) fn turn<D: Disk + Drop, L: Links + Drop>(server: &mut Server<D, L>) -> Answer {
    server.turn()
}

/// How a match ended by a turn that was answered so, before which so many started a node; none where it goes on. A turn
/// that found no memory is taken again.
pub(crate) fn ending_by(answer: Answer, starts: &mut u64) -> Option<Ending> {
    match answer {
        Ok(Turn::Over) => Some(Ending::Over { starts: *starts }),
        Ok(Turn::Started(_)) => {
            *starts = starts.saturating_add(1);
            None
        }
        Ok(_) | Err(ServeFault::Node(NodeFault::OutOfMemory)) => None,
        Err(fault) => Some(Ending::Refused(fault)),
    }
}

/// Lets a server take turns until all is over or a fault comes.
pub(crate) fn serve<D: Disk + Drop, L: Links + Drop>(server: &mut Server<D, L>) -> Ending {
    let mut starts = 0u64;
    for _ in 0..TURNS {
        if let Some(ending) = ending_by(turn(server), &mut starts) {
            return ending;
        }
    }
    Ending::Never
}

/// How many calls of the disks failed.
fn failures<D: Disk + Drop, L: Links + Drop>(server: &Server<D, L>) -> u64 {
    let cluster = server.cluster();
    let mut failures = 0u64;
    for node in 0..cluster.node_count() {
        failures = failures.saturating_add(cluster.node(node).failures());
    }
    failures
}

/// What came of a match over links in memory.
#[derive(Drop)]
pub(crate) struct Course {
    pub(crate) ending: Ending,
    /// How many calls of disks failed.
    pub(crate) failures: u64,
    /// What the one call of a link that failed was to reach; none where none did.
    pub(crate) failed: Option<Reached>,
    /// The lines of seats, each behind the digits of its node and its seat and with a line feed.
    pub(crate) told: Vec<u8>,
    /// The logs of the three nodes, one behind the other.
    pub(crate) logs: Vec<u8>,
}

/// Puts a line that a seat was told behind a text, behind the digits of its node and its seat and with a line feed.
fn put_told(text: &mut Vec<u8>, told: &Told) -> Result<(), AllocError> {
    let node = b'0' + told.node.min(9);
    let seat = b'0' + told.seat.min(9);
    text.extend_from_slice(&[node, b' ', seat, b' '])?;
    text.extend_from_slice(&told.line)?;
    text.push(b'\n')?;
    Ok(())
}

/// The lines that seats were told.
pub(crate) fn told(alloc: Global, links: &MemoryLinks) -> Result<Vec<u8>, AllocError> {
    let mut all = Vec::new(alloc);
    for told in links.told().iter() {
        put_told(&mut all, told)?;
    }
    Ok(all)
}

/// The logs of three nodes, one behind the other.
pub(crate) fn logs(alloc: Global, links: &MemoryLinks) -> Result<Vec<u8>, AllocError> {
    let mut all = Vec::new(alloc);
    for node in 0..3 {
        all.extend_from_slice(links.log(node))?;
    }
    Ok(all)
}

/// What comes of a match that this server serves.
pub(crate) fn course_of<D: Disk + Drop>(
    rt: &impl Abort,
    alloc: Global,
    server: &mut Server<D, MemoryLinks>,
) -> Result<Course, AllocError> {
    assert_places(rt, server);
    let ending = serve(server);
    course_after(alloc, server, ending)
}

/// What came of a match that this server served, and that ended so.
pub(crate) fn course_after<D: Disk + Drop>(
    alloc: Global,
    server: &Server<D, MemoryLinks>,
    ending: Ending,
) -> Result<Course, AllocError> {
    let failures = failures(server);
    let links = server.links();
    Ok(Course {
        ending,
        failures,
        failed: links.failed(),
        told: told(alloc, links)?,
        logs: logs(alloc, links)?,
    })
}

/// Serves a match over these disks and links to its end; none where no server could be made.
pub(crate) fn play<D: Disk + Drop>(
    rt: &impl Abort,
    alloc: Global,
    disks: Vec<D>,
    links: MemoryLinks,
    outages: Outages,
) -> Result<Option<Course>, AllocError> {
    match server(rt, alloc, disks, links, outages)? {
        None => Ok(None),
        Some(mut server) => Ok(Some(course_of(rt, alloc, &mut server)?)),
    }
}

/// The disks of three nodes, of which that of this one fails in its call of this number; with 0 none does.
pub(crate) fn disks(alloc: Global, failing: usize, call: u64) -> Result<Vec<OnceDisk>, AllocError> {
    let mut disks = Vec::new(alloc);
    for node in 0..3 {
        let call = if node == failing { call } else { 0 };
        disks.push(OnceDisk::new(alloc, call))?;
    }
    Ok(disks)
}

/// No outages.
pub(crate) fn no_outages(alloc: Global) -> Outages {
    Outages::new(Vec::new(alloc))
}

/// One node is out, from so many commands on, and perhaps until so many.
pub(crate) fn outage(
    alloc: Global,
    node: usize,
    at: u64,
    back: Option<u64>,
) -> Result<Outages, AllocError> {
    let listed = vec![in alloc; Outage { node, at, back }]?;
    Ok(Outages::new(listed))
}

/// Both seats' bots call each node: they send all their lines, of which those that are old are refused.
fn call_each(links: &mut MemoryLinks) -> Result<(), AllocError> {
    for node in 0..3 {
        links.call(node, 0, ALICE)?;
        links.call(node, 1, BOB)?;
    }
    Ok(())
}

/// Both seats' bots at each node, twice. The call of a link of this number fails; with 0 none does.
pub(crate) fn bots_everywhere(alloc: Global, call: u64) -> Result<MemoryLinks, AllocError> {
    let mut links = MemoryLinks::new(alloc, 3, call)?;
    call_each(&mut links)?;
    call_each(&mut links)?;
    Ok(links)
}

/// Both seats' bots call each node: they name the version, and are lost.
fn call_each_and_end(links: &mut MemoryLinks) -> Result<(), AllocError> {
    for node in 0..3 {
        links.call(node, 0, VERSION)?;
        links.call(node, 1, VERSION)?;
    }
    Ok(())
}

/// Both seats' bots at each node, twice; each is lost once it has named the version. The call of a link of this number
/// fails; with 0 none does.
pub(crate) fn lost_bots(alloc: Global, call: u64) -> Result<MemoryLinks, AllocError> {
    let mut links = MemoryLinks::new(alloc, 3, call)?;
    call_each_and_end(&mut links)?;
    call_each_and_end(&mut links)?;
    Ok(links)
}

/// Asserts that three logs, one behind the other, are each the whole log of the match where each folds.
pub(crate) fn assert_whole(rt: &impl Abort, logs: &[u8]) {
    let each = LOG.len();
    assert!(rt; logs.len() == 3 * each);
    for log in logs.chunks(each) {
        assert_bytes(rt, log, LOG);
    }
}

/// Asserts that all three nodes have the whole log.
pub(crate) fn assert_logged(rt: &impl Abort, course: &Course, call: u64) {
    let each = LOG.len();
    assert_holds(rt, call, course.logs.len() == 3 * each);
    for log in course.logs.chunks(each) {
        assert_bytes_of(rt, call, log, LOG);
    }
}
