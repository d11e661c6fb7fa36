//! Links in memory, of whose calls one may fail.

ghost use Rattle.std.specs.Prelude.{◌≡◌, ◌≤◌, ◌<◌, ◌+◌, ◌++◌, ◌==◌, [], if◌then◌else◌, ◌∷◌, length, take, map, replicate, get_or, nat_lt, is_some, position, vec_len, Ok, IfOk, IfErr, IsOk, OnOk, OnErr};
ghost use Rattle.match_links.specs.Memory.{told_by, AreTold, told_prop, AreLogged, logged_prop};
ghost use Rattle.match_links.specs.Counting.{is_due, one_less, passing, once_more};
ghost use Rattle.match_links.specs.Passages.{sat, came, lines_in, log_of, Told as WasTold, Emptied as WasEmptied, Logged as WasLogged};
ghost use Rattle.match_links.specs.Room.{line_room, reaching};
ghost use Rattle.match_links.specs.declared.links.LinkFault.TheVariants.{OutOfMemory, Failed};

use crate::blank::Blank;
use crate::callers::Callers;
use crate::limits::{FRAME, NODES};
use crate::links::{LinkFault, Links};
use crate::memory_logs::{add_to_one, empty_logs, empty_one, reserve_logs};
use crate::passages::Passages;
use std::alloc::{AllocError, Global};

/// How many bytes of each log there is room for from the start: the header of a match with short names, so that what comes
/// behind it finds its room by `reserve` alone.
const ROOM: usize = 64;

/// Of how many seats it is counted how often they are turned away: as many as the largest match has.
const SEATS: usize = 10;

/// What a call of a link reaches.
#[derive(Clone, Copy, Debug, PartialEq, Eq)]
pub enum Reached {
    /// A seat's connection.
    Seat,
    /// The connection of two nodes.
    Peer,
    /// The seats' ports of a node.
    Ports,
    /// A node's log.
    Log,
}

/// A line that a seat got at a node, without its line end.
#[derive(Debug, Drop)]
pub struct Told {
    pub node: u8,
    pub seat: u8,
    pub line: Vec<u8>,
}

/// Links in memory: connections that wait from the start, each with all that it sends; what was told to seats; a log
/// for each node. Nodes are counted from 0, to 6.
///
/// Connections that wait at a node when its ports are closed, or while the seat is awaited elsewhere, go on waiting: they
/// stand for bots that dial again. Nobody comes later than the start: a call that nobody is there for fails at once, and
/// is slow only where it was told to be.
///
/// Where `reserve` made room, no other call grows anything, once the connections that wait were put there: `write` of a
/// line of at most 4,096 bytes, `add_to_log` and `send` put what they are given into that room, and so fail only where they
/// are told to or where nobody is there. Where there is no room they grow as it comes.
pub struct MemoryLinks {
    alloc: Global,
    callers: Callers,
    told: Vec<Told>,
    /// The rooms of lines that seats will be told.
    blanks: Vec<Blank>,
    logs: Vec<Vec<u8>>,
    /// The last frame, and the nodes whose connection it is in.
    wire: Vec<u8>,
    ends: (u8, u8),
    /// Of which nodes the seats' ports are closed.
    closed: [bool; NODES],
    /// How often it was asked to turn each seat away, 255 at most.
    turned_away: [u8; SEATS],
    /// How many calls pass before the one that fails; none once it has.
    left: Option<u64>,
    /// What the call that failed was to reach.
    failed: Option<Reached>,
    /// How many calls pass before the one that is slow; none once it was, or where none is to be.
    left_to_slow: Option<u64>,
    /// What the call that was slow was to reach.
    slowed: Option<Reached>,
    /// What passed, for clauses alone.
    passed: Passages,
    ghost lines: { AreTold told.items passed.items } by { told_prop told.items passed.items },
    ghost logged: { AreLogged (map (λ log. log.items) logs.items) passed.items } by { logged_prop (map (λ log. log.items) logs.items) passed.items },
}

/// By hand, so that letting one go is one call for whoever owns it (docs/ARCHITECTURE.md, Habits).
impl Drop for MemoryLinks {
    fn drop(self) {
        let MemoryLinks {
            alloc: _,
            callers: _,
            told: _,
            blanks: _,
            logs: _,
            wire: _,
            ends: _,
            closed: _,
            turned_away: _,
            left: _,
            failed: _,
            left_to_slow: _,
            slowed: _,
            passed: _,
        } = self;
    }
}

/// Counts a call, and says whether it is the one that was counted down to.
fn count_down(left: &mut Option<u64>) -> bool
    ensures due { result ≡ is_due left.old }
    ensures left { left.new ≡ one_less left.old }
{
    match *left {
        None => false,
        Some(0) => {
            *left = None;
            true
        }
        Some(count) => {
            *left = Some(count - 1);
            false
        }
    }
}

/// Counts once more of this number, up to 255; nothing where there is no such count.
fn count_once(counts: &mut [u8], number: usize)
    ensures { counts.new ≡ once_more counts.old number }
{
    if number < counts.len() {
        counts[number] = counts[number].saturating_add(1);
    }
}

/// Puts a line behind those that seats got, into room that was made for it; where there is none, it takes memory.
fn tell_one(
    alloc: Global,
    told: &mut Vec<Told>,
    blanks: &mut Vec<Blank>,
    node: u8,
    seat: u8,
    line: &[u8],
) -> Result<(), AllocError>
    ensures told { OnOk result (map told_by told.new.items ≡ map told_by told.old.items ++ WasTold node seat line.now ∷ []) }
    ensures failed { OnErr result (told.new.items ≡ told.old.items) }
    ensures ample { 1 ≤ line_room told.old blanks.old → length line.now ≤ 4096 → IsOk result }
    ensures used { line_room told.old blanks.old ≤ line_room told.new blanks.new + 1 }
{
    let blank = match blanks.pop() {
        Some(blank) => blank,
        None => Blank::new(alloc)?,
    };
    let line = blank.filled(line)?;
    told.push(Told { node, seat, line })?;
    Ok(())
}

/// Makes the rooms of so many lines.
fn reserve_blanks(alloc: Global, blanks: &mut Vec<Blank>, lines: usize) -> Result<(), AllocError>
    ensures room { OnOk result (lines ≤ vec_len blanks.new) }
    ensures kept { vec_len blanks.old ≤ vec_len blanks.new }
{
    for _ in blanks.len()..lines {
        blanks.push(Blank::new(alloc)?)?;
    }
    Ok(())
}

impl MemoryLinks {
    ghost use Rattle.match_links.specs.MemoryPassed.{passed_of, turned_away_in};
    ghost use Rattle.match_links.specs.MemoryRoom.{room_of};
    ghost use Rattle.match_links.specs.Room.{IsAmple};

    /// Links of so many nodes. The call of this number fails, counted from 1; with 0 none does.
    pub fn new(alloc: Global, nodes: usize, call: u64) -> Result<MemoryLinks, AllocError>
        ensures passed { IfOk result (λ links. passed_of links ≡ []) }
        ensures room { IfOk result (λ links. IsAmple (room_of links) 0 64) }
        ensures logs { IfOk result (λ links. length (room_of links).logs ≡ nodes) }
        ensures turned { IfOk result (λ links. turned_away_in links ≡ replicate 10 0) }
    {
        let mut links = MemoryLinks {
            alloc,
            callers: Callers::new(alloc),
            told: Vec::new(alloc),
            blanks: Vec::new(alloc),
            logs: empty_logs(alloc, nodes)?,
            wire: Vec::new(alloc),
            ends: (0, 0),
            closed: [false; NODES],
            turned_away: [0; SEATS],
            left: call.checked_sub(1),
            failed: None,
            left_to_slow: None,
            slowed: None,
            passed: Passages::new(),
        };
        links.reserve(0, ROOM)?;
        Ok(links)
    }

    /// Puts a connection of a seat to a node behind those that wait there. It sends these bytes, and ends. The list of
    /// callers keeps it; a link says of the call that nothing passed by it.
    pub fn call(&mut self, node: u8, seat: u8, bytes: &[u8]) -> Result<(), AllocError>
        ensures { passed_of self.new ≡ passed_of self.old }
    {
        self.callers.add(self.alloc, node, seat, bytes)
    }

    /// All lines that seats got, in order.
    pub fn told(&self) -> &[Told]
        ensures { map told_by result.now ≡ lines_in (passed_of self.now) }
    {
        &self.told
    }

    /// The log of a node; nothing of a number that no node has.
    pub fn log(&self, node: usize) -> &[u8]
        ensures { result.now ≡ log_of (passed_of self.now) node }
    {
        match self.logs.get(node) {
            Some(log) => log,
            None => &[],
        }
    }

    /// How often it was asked to turn a seat away, 255 at most; 0 of a seat from 10 on, of which nothing is kept.
    pub fn times_turned_away(&self, seat: usize) -> u8
        ensures { result ≡ get_or (turned_away_in self.now) seat 0 }
    {
        match self.turned_away.get(seat) {
            Some(times) => *times,
            None => 0,
        }
    }

    /// What the call that was to fail was to reach, once it has been made.
    pub fn failed(&self) -> Option<Reached>
        ensures { result ≡ self.now.failed }
    {
        self.failed
    }

    /// The call of this number from now on, counted from 1 as for the call that fails, is slow; with 0 none is. Where one
    /// call is to do both, it fails.
    pub fn slow_down(&mut self, call: u64)
        ensures { passed_of self.new ≡ passed_of self.old }
    {
        self.left_to_slow = call.checked_sub(1);
        self.slowed = None;
    }

    /// What the call that was to be slow was to reach, once it has been made.
    pub fn slowed(&self) -> Option<Reached>
        ensures { result ≡ self.now.slowed }
    {
        self.slowed
    }

    /// Whether the seats' ports of a node are closed.
    fn is_closed(&self, node: u8) -> bool {
        match self.closed.get(node as usize) {
            Some(closed) => *closed,
            None => true,
        }
    }

    fn set_closed(&mut self, node: u8, closed: bool)
        ensures same { self.new.passed ≡ self.old.passed }
        ensures told { self.new.told ≡ self.old.told }
        ensures blanks { self.new.blanks ≡ self.old.blanks }
        ensures logs { self.new.logs ≡ self.old.logs }
        ensures wire { self.new.wire ≡ self.old.wire }
        ensures turned { self.new.turned_away ≡ self.old.turned_away }
    {
        if (node as usize) < NODES {
            self.closed[node as usize] = closed;
        }
    }

    /// Whether this call passes.
    fn pass(&mut self, reached: Reached) -> Result<(), LinkFault>
        ensures callers { self.new.callers ≡ self.old.callers }
        ensures answer { result ≡ passing self.old.left self.old.left_to_slow }
        ensures left { self.new.left ≡ one_less self.old.left }
        ensures left_to_slow { self.new.left_to_slow ≡ one_less self.old.left_to_slow }
        ensures same { self.new.passed ≡ self.old.passed }
        ensures told { self.new.told ≡ self.old.told }
        ensures blanks { self.new.blanks ≡ self.old.blanks }
        ensures logs { self.new.logs ≡ self.old.logs }
        ensures wire { self.new.wire ≡ self.old.wire }
        ensures turned { self.new.turned_away ≡ self.old.turned_away }
    {
        let fails = count_down(&mut self.left);
        let is_slow = count_down(&mut self.left_to_slow);
        if fails {
            self.failed = Some(reached);
            return Err(LinkFault::Failed);
        }
        if is_slow {
            self.slowed = Some(reached);
            return Err(LinkFault::Slow);
        }
        Ok(())
    }
}

impl Links for MemoryLinks {
    ghost use Rattle.match_links.specs.MemoryPassed.{passed_of, callers_of, turned_away_in};
    ghost use Rattle.match_links.specs.MemoryRoom.{room_of};
    ghost use Rattle.match_links.specs.Room.{IsAmple, Leaves};
    ghost use Rattle.match_links.specs.Callers.{is_open_for};

    ghost passed = { λ links. links.passed.items };

    fn reserve(&mut self, lines: usize, text: usize) -> Result<(), AllocError>
        ensures same { passed_of self.new ≡ passed_of self.old }
        ensures callers { callers_of self.new ≡ callers_of self.old }
        ensures left { self.new.left ≡ self.old.left }
        ensures left_to_slow { self.new.left_to_slow ≡ self.old.left_to_slow }
        ensures room { OnOk result (IsAmple (room_of self.new) lines text) }
        ensures keeps { Leaves (room_of self.old) 0 (λ _. 0) (room_of self.new) }
        ensures logs { length (room_of self.new).logs ≡ length (room_of self.old).logs }
        ensures turned { turned_away_in self.new ≡ turned_away_in self.old }
    {
        self.told.reserve(lines)?;
        reserve_blanks(self.alloc, &mut self.blanks, lines)?;
        reserve_logs(&mut self.logs, text)?;
        self.wire.reserve(FRAME)
    }

    #[tactic(auto, using(crate::proofs::Passed::lines_when_sat, crate::proofs::Passed::log_when_sat))]
    fn accept(&mut self, node: u8, seat: u8) -> Result<(), LinkFault>
        ensures sat { OnOk result (passed_of self.new ≡ passed_of self.old ++ sat node seat ∷ []) }
        ensures failed { OnErr result (passed_of self.new ≡ passed_of self.old) }
        ensures nothing_taken { OnErr result (callers_of self.new ≡ callers_of self.old) }
        ensures granted { IfErr result (λ why. why ≡ OutOfMemory → ⊥) }
        ensures room { Leaves (room_of self.old) 0 (λ _. 0) (room_of self.new) }
        ensures turned { turned_away_in self.new ≡ turned_away_in self.old }
    {
        self.pass(Reached::Seat)?;
        if self.is_closed(node) {
            return Err(LinkFault::Failed);
        }
        self.callers.open_next(node, seat)?;
        self.passed.sat(node, seat);
        Ok(())
    }

    #[tactic(auto, using(crate::proofs::Passed::lines_when_came, crate::proofs::Passed::log_when_came))]
    fn read(&mut self, node: u8, seat: u8, piece: &mut [u8]) -> Result<usize, LinkFault>
        ensures within { IfOk result (λ count. count ≤ length piece.new) }
        ensures came { IfOk result (λ count. passed_of self.new ≡ passed_of self.old ++ came node seat (take count piece.new)) }
        ensures failed { OnErr result (passed_of self.new ≡ passed_of self.old) }
        ensures nothing_taken { OnErr result (callers_of self.new ≡ callers_of self.old) }
        ensures granted { IfErr result (λ why. why ≡ OutOfMemory → ⊥) }
        ensures room { Leaves (room_of self.old) 0 (λ _. 0) (room_of self.new) }
        ensures turned { turned_away_in self.new ≡ turned_away_in self.old }
    {
        self.pass(Reached::Seat)?;
        let count = self.callers.read(node, seat, piece)?;
        self.passed.came(node, seat, &piece[..count]);
        Ok(count)
    }

    #[tactic(auto, using(crate::proofs::Passed::lines_when_told, crate::proofs::Passed::log_when_told))]
    fn write(&mut self, node: u8, seat: u8, line: &[u8]) -> Result<(), LinkFault>
        ensures told { OnOk result (passed_of self.new ≡ passed_of self.old ++ WasTold node seat line.now ∷ []) }
        ensures failed { OnErr result (passed_of self.new ≡ passed_of self.old) }
        ensures answer { 1 ≤ (room_of self.old).lines → length line.now ≤ 4096
            → result ≡ reaching (passing self.old.left self.old.left_to_slow) (is_some (position (is_open_for node seat) (callers_of self.old))) }
        ensures room { Leaves (room_of self.old) 1 (λ _. 0) (room_of self.new) }
        ensures turned { turned_away_in self.new ≡ turned_away_in self.old }
    {
        self.pass(Reached::Seat)?;
        if !self.callers.is_open(node, seat) {
            return Err(LinkFault::Failed);
        }
        tell_one(
            self.alloc,
            &mut self.told,
            &mut self.blanks,
            node,
            seat,
            line,
        )?;
        self.passed.told(node, seat, line);
        Ok(())
    }

    /// Those who wait go on waiting: nobody asks for that seat any more. It is counted (`times_turned_away`).
    fn turn_away(&mut self, seat: u8)
        ensures same { passed_of self.new ≡ passed_of self.old }
        ensures turned { turned_away_in self.new ≡ once_more (turned_away_in self.old) seat }
        ensures room { Leaves (room_of self.old) 0 (λ _. 0) (room_of self.new) }
    {
        count_once(&mut self.turned_away, seat as usize);
    }

    fn hang_up(&mut self, node: u8, seat: u8)
        ensures same { passed_of self.new ≡ passed_of self.old }
        ensures room { Leaves (room_of self.old) 0 (λ _. 0) (room_of self.new) }
        ensures turned { turned_away_in self.new ≡ turned_away_in self.old }
    {
        self.callers.close_seat(node, seat);
    }

    fn send(&mut self, from: u8, to: u8, frame: &[u8]) -> Result<(), LinkFault>
        ensures same { passed_of self.new ≡ passed_of self.old }
        ensures answer { length frame.now ≤ (room_of self.old).frame → result ≡ passing self.old.left self.old.left_to_slow }
        ensures room { Leaves (room_of self.old) 0 (λ _. 0) (room_of self.new) }
        ensures turned { turned_away_in self.new ≡ turned_away_in self.old }
    {
        self.pass(Reached::Peer)?;
        self.wire.clear();
        self.ends = (from, to);
        match self.wire.extend_from_slice(frame) {
            Ok(()) => Ok(()),
            Err(_) => Err(LinkFault::OutOfMemory),
        }
    }

    fn receive(&mut self, from: u8, to: u8, frame: &mut [u8]) -> Result<(), LinkFault>
        ensures same { passed_of self.new ≡ passed_of self.old }
        ensures granted { IfErr result (λ why. why ≡ OutOfMemory → ⊥) }
        ensures room { Leaves (room_of self.old) 0 (λ _. 0) (room_of self.new) }
        ensures turned { turned_away_in self.new ≡ turned_away_in self.old }
    {
        self.pass(Reached::Peer)?;
        if self.ends.0 != from || self.ends.1 != to || frame.len() != self.wire.len() {
            return Err(LinkFault::Failed);
        }
        frame.copy_from_slice(&self.wire);
        Ok(())
    }

    #[tactic(auto, using(crate::proofs::Passed::lines_when_emptied, crate::proofs::Passed::log_when_emptied))]
    fn empty_log(&mut self, node: u8) -> Result<(), LinkFault>
        ensures emptied { OnOk result (passed_of self.new ≡ passed_of self.old ++ WasEmptied node ∷ []) }
        ensures failed { OnErr result (passed_of self.new ≡ passed_of self.old) }
        ensures granted { IfErr result (λ why. why ≡ OutOfMemory → ⊥) }
        ensures room { Leaves (room_of self.old) 0 (λ _. 0) (room_of self.new) }
        ensures turned { turned_away_in self.new ≡ turned_away_in self.old }
    {
        self.pass(Reached::Log)?;
        empty_one(&mut self.logs, node as usize)?;
        self.passed.emptied(node);
        Ok(())
    }

    #[tactic(auto, using(crate::proofs::Passed::lines_when_logged, crate::proofs::Passed::log_when_logged))]
    fn add_to_log(&mut self, node: u8, text: &[u8]) -> Result<(), LinkFault>
        ensures logged { OnOk result (passed_of self.new ≡ passed_of self.old ++ WasLogged node text.now ∷ []) }
        ensures failed { OnErr result (passed_of self.new ≡ passed_of self.old) }
        ensures answer { length text.now ≤ get_or (room_of self.old).logs node 0
            → result ≡ reaching (passing self.old.left self.old.left_to_slow) (nat_lt node (length (room_of self.old).logs)) }
        ensures room { Leaves (room_of self.old) 0 (λ i. if node == i then length text.now else 0) (room_of self.new) }
        ensures turned { turned_away_in self.new ≡ turned_away_in self.old }
    {
        self.pass(Reached::Log)?;
        add_to_one(&mut self.logs, node as usize, text)?;
        self.passed.logged(node, text);
        Ok(())
    }

    fn open(&mut self, node: u8) -> Result<(), LinkFault>
        ensures same { passed_of self.new ≡ passed_of self.old }
        ensures granted { IfErr result (λ why. why ≡ OutOfMemory → ⊥) }
        ensures room { Leaves (room_of self.old) 0 (λ _. 0) (room_of self.new) }
        ensures turned { turned_away_in self.new ≡ turned_away_in self.old }
    {
        self.pass(Reached::Ports)?;
        self.set_closed(node, false);
        Ok(())
    }

    fn part(&mut self, node: u8)
        ensures same { passed_of self.new ≡ passed_of self.old }
        ensures room { Leaves (room_of self.old) 0 (λ _. 0) (room_of self.new) }
        ensures turned { turned_away_in self.new ≡ turned_away_in self.old }
    {
        self.callers.close_node(node);
    }

    fn close_node(&mut self, node: u8)
        ensures same { passed_of self.new ≡ passed_of self.old }
        ensures room { Leaves (room_of self.old) 0 (λ _. 0) (room_of self.new) }
        ensures turned { turned_away_in self.new ≡ turned_away_in self.old }
    {
        self.set_closed(node, true);
        self.callers.close_node(node);
    }
}
