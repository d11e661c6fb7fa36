//! The nodes of a match as stations over disks in memory, each in a process of its own.
//!
//! What comes next is drawn: a frame of those on their way, whatever its age, and of eight one stays on its way and comes
//! again; or where there is none, that a node plays for the player to act and ticks. A process whose disk fails dies, and
//! of its disk is left what a crash may leave, drawn too. The next time that something comes to its node that is lost, and
//! the node's next process begins on what was left.

ghost use Rattle.std.specs.Prelude.{◌≡◌, ◌<◌, ℕ};
ghost use Rattle.dealer_world.specs.Events.{node_of};
ghost use Rattle.dealer_world.specs.Stepping.{IsFor};

use crate::samples::{assert_bytes_of, assert_holds, holds, own_deals};
use dealer_node::{NodeFault, Out, Reader};
use dealer_world::Event;
use promise_store::{Disk, MemoryDisk};
use stations::Station;
use std::alloc::{AllocError, Global};
use std::mem;
use std::process::Abort;
use std::test::Fail;

/// How much comes to the nodes of a match at most.
const TURNS: u32 = 2_000;

/// A frame on its way.
#[derive(Drop)]
struct Sent {
    from: u8,
    to: u8,
    bytes: Vec<u8>,
}

/// A node: its process, where it has one; what that has logged; and where it has none, what is left of its store.
struct Process {
    station: Option<Station<MemoryDisk>>,
    log: Vec<u8>,
    left: Vec<u8>,
}

/// By hand, so that letting one go is one call for whoever owns it.
impl Drop for Process {
    fn drop(self) {
        let Process {
            station: _,
            log: _,
            left: _,
        } = self;
    }
}

/// What a process gives its node by itself.
#[derive(Clone, Copy)]
enum Own {
    Start,
    Tick,
    Away,
    /// It stops, and of its disk is left what this picks.
    Stop(u64),
}

/// The processes of all nodes.
struct Processes {
    alloc: Global,
    nodes: Vec<Process>,
    frames: Vec<Sent>,
    /// What processes had logged that died.
    logs: Vec<Vec<u8>>,
    made: Out,
    /// From which the next number is drawn.
    state: u64,
}

/// By hand as well.
impl Drop for Processes {
    fn drop(self) {
        let Processes {
            alloc: _,
            nodes: _,
            frames: _,
            logs: _,
            made: _,
            state: _,
        } = self;
    }
}

/// A number below this one, which isn't 0 (Knuth's linear congruence).
fn draw(rt: &impl Abort, state: &mut u64, below: usize) -> usize {
    *state = state
        .wrapping_mul(6364136223846793005)
        .wrapping_add(1442695040888963407);
    assert!(rt; below > 0);
    (*state >> 33) as usize % below
}

// ---- one process

/// The event by which a node gets it.
fn event_of(own: Own, node: u8) -> Event
    ensures here { node_of result ≡ node }
    ensures within { (nodes players : ℕ) → node < nodes → IsFor nodes players result }
{
    match own {
        Own::Start => Event::Start { node },
        Own::Tick => Event::Tick { node },
        Own::Away => Event::Away { node },
        Own::Stop(pick) => Event::Stop { node, pick },
    }
}

/// Gives a node what its process does by itself.
fn give<D: Disk + Drop>(
    station: &mut Station<D>,
    own: Own,
    made: &mut Out,
) -> Result<(), NodeFault> {
    station.limits();
    made.clear();
    let event = event_of(own, station.number());
    station.step(&event, made)
}

/// Brings a node a frame.
fn bring<D: Disk + Drop>(
    rt: &impl Abort,
    station: &mut Station<D>,
    sent: Sent,
    made: &mut Out,
) -> Result<(), NodeFault> {
    let Sent { from, to, bytes } = sent;
    let nodes = station.config().nodes();
    assert!(rt; (from as usize) < nodes && (to as usize) < nodes && to == station.number());
    made.clear();
    station.step(&Event::Frame { from, to, bytes }, made)
}

/// A disk that has these bytes, synced. So many of its calls pass, or all.
fn disk_with(alloc: Global, bytes: &[u8], calls: Option<u64>) -> Result<MemoryDisk, Fail> {
    let mut disk = match calls {
        Some(calls) => MemoryDisk::new(alloc, &[calls])?,
        None => MemoryDisk::new(alloc, &[])?,
    };
    disk.write_at(0, bytes)?;
    disk.sync()?;
    Ok(disk)
}

/// The station of a node over this disk; none where the disk fails.
fn opened<D: Disk + Drop>(
    rt: &impl Abort,
    alloc: Global,
    nodes: usize,
    number: u8,
    disk: D,
) -> Result<Option<Station<D>>, AllocError> {
    let config = own_deals(rt, alloc, nodes)?;
    assert!(rt; (number as usize) < config.nodes());
    Ok(Station::open(alloc, config, number, disk).ok())
}

/// Whether the match is over at a node.
fn is_over(process: &Process) -> bool {
    match &process.station {
        Some(station) => station.node().table().over(),
        None => false,
    }
}

// ---- what a call made

/// Puts what a node sent behind the frames on their way.
fn send(alloc: Global, frames: &mut Vec<Sent>, from: u8, made: &Out) -> Result<(), AllocError> {
    for (to, text) in made.frames() {
        let bytes = text.to_vec(alloc)?;
        frames.push(Sent { from, to, bytes })?;
    }
    Ok(())
}

/// Puts what a node logged behind its log.
fn put_logged(log: &mut Vec<u8>, made: &Out) -> Result<(), AllocError> {
    for (reader, text) in made.shown() {
        if reader == Reader::Log {
            log.extend_from_slice(text)?;
        }
    }
    Ok(())
}

/// The bytes of a node's disk.
fn bytes_of(alloc: Global, station: &Station<MemoryDisk>) -> Result<Vec<u8>, AllocError> {
    match station.node().disk() {
        Some(disk) => disk.bytes().to_vec(alloc),
        None => Ok(Vec::new(alloc)),
    }
}

/// The process of a node dies: what is left of its disk by this pick, and what it had logged.
fn die(
    alloc: Global,
    process: &mut Process,
    pick: u64,
    made: &mut Out,
) -> Result<Vec<u8>, AllocError> {
    if let Some(mut station) = process.station.take() {
        let _ = give(&mut station, Own::Stop(pick), made);
        process.left = bytes_of(alloc, &station)?;
    }
    Ok(mem::replace(&mut process.log, Vec::new(alloc)))
}

// ---- all processes

/// The bytes of a new store of a node.
fn new_store(alloc: Global, node: u8, nodes: u8) -> Result<Vec<u8>, AllocError> {
    let mut bytes = b"HDJ2".to_vec(alloc)?;
    bytes.extend_from_slice(&[node, nodes, 0, 0, 0])?;
    Ok(bytes)
}

/// A node of this number.
fn process_of<'a>(rt: &impl Abort, nodes: &'a mut [Process], number: u8) -> &'a mut Process {
    nodes.get_mut(number as usize).expect(rt, "a node")
}

/// What a node sent and logged is handed on.
fn hand_on(rt: &impl Abort, all: &mut Processes, number: u8) -> Result<(), AllocError> {
    put_logged(&mut process_of(rt, &mut all.nodes, number).log, &all.made)?;
    send(all.alloc, &mut all.frames, number, &all.made)
}

/// The process of a node dies; what is left of its disk is drawn.
fn bury(rt: &impl Abort, all: &mut Processes, number: u8) -> Result<(), AllocError> {
    let pick = draw(rt, &mut all.state, 729) as u64;
    let process = process_of(rt, &mut all.nodes, number);
    let log = die(all.alloc, process, pick, &mut all.made)?;
    all.logs.push(log)?;
    Ok(())
}

/// What came of a call of a node is handed on; by 91 its process dies. No other fault comes than that no hand runs.
fn settle(
    rt: &impl Abort,
    all: &mut Processes,
    number: u8,
    answer: Result<(), NodeFault>,
) -> Result<(), AllocError> {
    match answer {
        Ok(()) => hand_on(rt, all, number),
        Err(NodeFault::Store(_)) => bury(rt, all, number),
        Err(fault) => {
            holds!(rt; fault == NodeFault::NothingToAct);
            Ok(())
        }
    }
}

/// The station of a node over these bytes; none where its disk fails, of which so many calls pass, or all.
fn begun(
    rt: &impl Abort,
    alloc: Global,
    (nodes, number): (usize, u8),
    left: &[u8],
    calls: Option<u64>,
) -> Result<Option<Station<MemoryDisk>>, Fail> {
    let disk = disk_with(alloc, left, calls)?;
    Ok(opened(rt, alloc, nodes, number, disk)?)
}

/// The next process of a node is there, or died at once: whether it is.
fn enter(
    rt: &impl Abort,
    all: &mut Processes,
    number: u8,
    calls: Option<u64>,
) -> Result<bool, Fail> {
    let place = (all.nodes.len(), number);
    let process = process_of(rt, &mut all.nodes, number);
    process.station = begun(rt, all.alloc, place, &process.left, calls)?;
    Ok(process.station.is_some())
}

/// The next process of a node begins, and starts it. So many calls of its disk pass, or all; where it fails before the
/// node is there, the process has died.
fn begin(rt: &impl Abort, all: &mut Processes, number: u8, calls: Option<u64>) -> Result<(), Fail> {
    if enter(rt, all, number, calls)? {
        return do_own(rt, all, number, Own::Start);
    }
    all.logs.push(Vec::new(all.alloc))?;
    Ok(())
}

/// Gives a node what its process does by itself, where it has one.
fn do_own(rt: &impl Abort, all: &mut Processes, number: u8, own: Own) -> Result<(), Fail> {
    let Some(station) = &mut process_of(rt, &mut all.nodes, number).station else {
        return Ok(());
    };
    let answer = give(station, own, &mut all.made);
    Ok(settle(rt, all, number, answer)?)
}

/// Whether a node has a process.
fn lives(rt: &impl Abort, all: &mut Processes, number: u8) -> bool {
    process_of(rt, &mut all.nodes, number).station.is_some()
}

/// Gives a node what its process does by itself; where it has none the next one begins.
fn do_or_begin(rt: &impl Abort, all: &mut Processes, number: u8, own: Own) -> Result<(), Fail> {
    if lives(rt, all, number) {
        do_own(rt, all, number, own)
    } else {
        begin(rt, all, number, None)
    }
}

/// Takes a frame that is drawn from those on their way, of which one of eight comes again.
fn take(rt: &impl Abort, all: &mut Processes) -> Result<Sent, AllocError> {
    let place = draw(rt, &mut all.state, all.frames.len());
    assert!(rt; place < all.frames.len());
    let sent = all.frames.remove(place);
    if draw(rt, &mut all.state, 8) == 0 {
        let bytes = sent.bytes.to_vec(all.alloc)?;
        all.frames.push(Sent {
            from: sent.from,
            to: sent.to,
            bytes,
        })?;
    }
    Ok(sent)
}

/// A frame comes to its node; where that has no process it is lost, and the next one begins.
fn deliver(rt: &impl Abort, all: &mut Processes) -> Result<(), Fail> {
    let sent = take(rt, all)?;
    let number = sent.to;
    let process = process_of(rt, &mut all.nodes, number);
    match &mut process.station {
        Some(station) => {
            let answer = bring(rt, station, sent, &mut all.made);
            Ok(settle(rt, all, number, answer)?)
        }
        None => begin(rt, all, number, None),
    }
}

/// A frame comes to its node, or where none is on its way a node that is drawn plays for the player to act, and ticks.
fn turn(rt: &impl Abort, all: &mut Processes) -> Result<(), Fail> {
    if !all.frames.is_empty() {
        return deliver(rt, all);
    }
    let number = draw(rt, &mut all.state, all.nodes.len()).min(6) as u8;
    do_or_begin(rt, all, number, Own::Away)?;
    do_or_begin(rt, all, number, Own::Tick)
}

/// So many nodes of a new match, none of which has a process.
fn created(alloc: Global, nodes: u8, seed: u64) -> Result<Processes, AllocError> {
    let mut all = Processes {
        alloc,
        nodes: Vec::new(alloc),
        frames: Vec::new(alloc),
        logs: Vec::new(alloc),
        made: Out::new(alloc),
        state: seed,
    };
    for number in 0..nodes {
        let left = new_store(alloc, number, nodes)?;
        all.nodes.push(Process {
            station: None,
            log: Vec::new(alloc),
            left,
        })?;
    }
    Ok(all)
}

/// Whether the match is over at all nodes.
fn are_over(all: &Processes) -> bool {
    for process in all.nodes.iter() {
        if !is_over(process) {
            return false;
        }
    }
    true
}

/// Asserts that a log is that of the whole match.
fn assert_whole(rt: &impl Abort, alloc: Global, log: &[u8]) -> Result<(), AllocError> {
    let config = own_deals(rt, alloc, 3)?;
    holds!(rt; match_log::check(log, config.game()).is_ok());
    Ok(())
}

/// Asserts that the match is over at all nodes, that all logged the same, and that each process that died had logged a
/// beginning of it.
fn assert_one_list(rt: &impl Abort, all: &Processes, number: u64) {
    assert_holds(rt, number, are_over(all));
    let first = all.nodes.first().expect(rt, "a node");
    for process in all.nodes.iter() {
        assert_bytes_of(rt, number, &process.log, &first.log);
    }
    for log in all.logs.iter() {
        assert_holds(rt, number, first.log.starts_with(log));
    }
}

/// A process of each node begins; so many calls of the failing one's disk pass.
fn begin_all(
    rt: &impl Abort,
    all: &mut Processes,
    nodes: u8,
    failing: u8,
    calls: u64,
) -> Result<(), Fail> {
    for number in 0..nodes {
        let passing = if number == failing { Some(calls) } else { None };
        begin(rt, all, number, passing)?;
    }
    Ok(())
}

/// Plays the match to its end.
fn play_on(rt: &impl Abort, all: &mut Processes) -> Result<(), Fail> {
    for _ in 0..TURNS {
        if are_over(all) {
            return Ok(());
        }
        turn(rt, all)?;
    }
    Ok(())
}

/// Asserts that the nodes show one list, which is that of the whole match.
fn assert_shown(rt: &impl Abort, all: &Processes, number: u64) -> Result<(), AllocError> {
    assert_one_list(rt, all, number);
    let first = all.nodes.first().expect(rt, "a node");
    assert_whole(rt, all.alloc, &first.log)
}

/// Plays a match of so many nodes, in which the process of one dies once so many calls of its disk have passed, of which
/// two are those that make its store: whether it did.
pub(crate) fn play(
    rt: &impl Abort,
    alloc: Global,
    nodes: u8,
    failing: u8,
    calls: u64,
) -> Result<bool, Fail> {
    let mut all = created(alloc, nodes, calls)?;
    begin_all(rt, &mut all, nodes, failing, calls)?;
    play_on(rt, &mut all)?;
    assert_shown(rt, &all, calls)?;
    Ok(!all.logs.is_empty())
}
