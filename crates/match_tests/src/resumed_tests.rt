//! A match that is served over stores which have all of it: no node knows a command as it starts, and the seats sit down
//! before one does. Then all commands are learned by one call, and the seats are told all of them in one turn.

use crate::course::{
    Course, Ending, TURNS, VERSION, assert_places, course_after, ending_by, no_outages, turn,
};
use crate::samples::{assert_bytes, assert_same, holds, same_deals};
use dealer_node::NodeFault;
use dealer_world::Cluster;
use match_file::Absent;
use match_links::MemoryLinks;
use promise_store::{Disk, OnceDisk};
use serving::Server;
use std::alloc::{AllocError, Global};
use std::process::Abort;
use std::test::Fail;

/// How many hands the match has.
const HANDS: u8 = 5;

/// What a journal has behind its node: the rest of its head, the promise of (1, 0), and what stands in a record before ten
/// commands that were accepted in it from slot 0 on, in 146 bytes.
const FRONT: &[u8] = &[
    3, 0, 0, 1, 0, 6, 1, 0, 0, 0, 1, 0, 1, 0, 146, 4, 0, 0, 0, 1, 0, 0, 0, 0, 0, 10,
];

/// The cards of a deal, behind their count.
const CARDS: &[u8] = &[9, 0x21, 0x33, 0x1a, 0x20, 0x00, 0x18, 0x06, 0x1c, 0x2e];

/// A fold, behind the number of its hand, as the first action there.
const FOLD: &[u8] = &[0, 0, 0, 0, 0, 0, 0];

/// What alice, seat 0, and bob, seat 1, are told of each hand: who is first to act folds.
const TOLD: &[u8] = b"0 0 MATCHSTATE:0:0::TdAs|
0 1 MATCHSTATE:1:0::|8hTc
0 0 MATCHSTATE:0:0:f:TdAs|
0 1 MATCHSTATE:1:0:f:|8hTc
0 0 MATCHSTATE:1:1::|8hTc
0 1 MATCHSTATE:0:1::TdAs|
0 0 MATCHSTATE:1:1:f:|8hTc
0 1 MATCHSTATE:0:1:f:TdAs|
0 0 MATCHSTATE:0:2::TdAs|
0 1 MATCHSTATE:1:2::|8hTc
0 0 MATCHSTATE:0:2:f:TdAs|
0 1 MATCHSTATE:1:2:f:|8hTc
0 0 MATCHSTATE:1:3::|8hTc
0 1 MATCHSTATE:0:3::TdAs|
0 0 MATCHSTATE:1:3:f:|8hTc
0 1 MATCHSTATE:0:3:f:TdAs|
0 0 MATCHSTATE:0:4::TdAs|
0 1 MATCHSTATE:1:4::|8hTc
0 0 MATCHSTATE:0:4:f:TdAs|
0 1 MATCHSTATE:1:4:f:|8hTc
";

/// How many lines that are.
const LINES: usize = 20;

/// Puts a command of a hand: its kind, the number of the hand, and what it is.
fn put_command(bytes: &mut Vec<u8>, kind: u8, hand: u8, rest: &[u8]) -> Result<(), AllocError> {
    bytes.extend_from_slice(&[kind, 0, 0, 0, hand])?;
    bytes.extend_from_slice(rest)
}

/// The journal of a node that promised (1, 0), and accepted in it the deal and the fold of each hand, at once.
fn journal(alloc: Global, node: u8) -> Result<Vec<u8>, AllocError> {
    let mut bytes = b"HDJ2".to_vec(alloc)?;
    bytes.push(node)?;
    bytes.extend_from_slice(FRONT)?;
    for hand in 0..HANDS {
        put_command(&mut bytes, 1, hand, CARDS)?;
        put_command(&mut bytes, 2, hand, FOLD)?;
    }
    bytes.push(0)?;
    Ok(bytes)
}

/// A disk that has it. None of its calls is to fail, so it refuses the journal for want of memory alone.
fn disk_of(alloc: Global, node: u8) -> Result<OnceDisk, Fail> {
    let mut disk = OnceDisk::new(alloc, 0);
    let bytes = journal(alloc, node)?;
    if disk.write_at(0, &bytes).is_err() {
        return Err(Fail::from(NodeFault::OutOfMemory));
    }
    disk.sync()?;
    Ok(disk)
}

/// The disks of three nodes, each of which accepted it all.
fn disks(alloc: Global) -> Result<Vec<OnceDisk>, Fail> {
    let mut disks = Vec::new(alloc);
    for node in 0..3u8 {
        disks.push(disk_of(alloc, node)?)?;
    }
    Ok(disks)
}

/// Both seats call node 0.
fn bots(alloc: Global) -> Result<MemoryLinks, AllocError> {
    let mut links = MemoryLinks::new(alloc, 3, 0)?;
    links.call(0, 0, VERSION)?;
    links.call(0, 1, VERSION)?;
    Ok(links)
}

/// Serves a cluster that is opened over these disks; none where a log refuses.
fn served<D: Disk + Drop>(
    rt: &impl Abort,
    alloc: Global,
    disks: Vec<D>,
) -> Result<Option<Server<D, MemoryLinks>>, NodeFault> {
    let config = same_deals(rt, alloc, u32::from(HANDS))?;
    assert!(rt; disks.len() == config.nodes());
    let cluster = Cluster::open(alloc, config, disks)?;
    let links = bots(alloc)?;
    Ok(Server::new(alloc, cluster, links, no_outages(alloc), Absent::Wait).ok())
}

/// How many lines seats were told.
fn line_count<D: Disk + Drop>(server: &Server<D, MemoryLinks>) -> usize {
    server.links().told().len()
}

/// Lets a server take turns to the end, and how many lines the turn told that told most of them.
fn serve<D: Disk + Drop>(server: &mut Server<D, MemoryLinks>) -> (Ending, usize) {
    let mut starts = 0u64;
    let mut most = 0usize;
    for _ in 0..TURNS {
        let before = line_count(server);
        let ending = ending_by(turn(server), &mut starts);
        most = most.max(line_count(server).saturating_sub(before));
        if let Some(ending) = ending {
            return (ending, most);
        }
    }
    (Ending::Never, most)
}

/// Asserts that the match came to its end, and where no disk failed that both seats were told all of it in one turn.
fn assert_told(rt: &impl Abort, course: &Course, most: usize) {
    holds!(rt; matches!(course.ending, Ending::Over { starts } if starts == course.failures));
    if course.failures == 0 {
        assert_bytes(rt, course.told.as_slice(), TOLD);
        assert_same(rt, most, LINES);
    }
}

/// The links make room for what one frame has ten commands of. `tests/serve_growths` runs this test and refuses it memory: a
/// turn that finds none is taken again, and drops no seat; a node whose disk finds none is started again.
#[test]
fn seats_are_told_many_commands_in_a_turn(rt: HostRuntime) -> Result<(), Fail> {
    let alloc = rt.alloc();
    let Some(mut server) = served(&rt, alloc, disks(alloc)?)? else {
        return Err(Fail::from(NodeFault::OutOfMemory));
    };
    assert_places(&rt, &server);
    let (ending, most) = serve(&mut server);
    let course = course_after(alloc, &server, ending)?;
    assert_told(&rt, &course, most);
    Ok(())
}
