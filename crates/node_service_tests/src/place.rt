//! A node of the match: its process, and what its disk has while it has none.

use crate::calls_left::ENDLESS;
use crate::samples::Server;
use crate::world::STEP;
use node_service::{Outcome, ServerNotice};
use node_wires::{Line, MemoryWire, Wire};
use std::alloc::{AllocError, Global};

/// The most nodes.
pub(crate) const NODES: usize = 5;

/// A node of the match.
#[derive(Drop)]
pub(crate) struct Place {
    pub(crate) server: Option<Server>,
    /// What the disk has while the node has no process.
    pub(crate) bytes: Vec<u8>,
    /// For so many more turns it stays without one.
    pub(crate) down: u64,
    /// How its last process ended, if it did.
    pub(crate) outcome: Outcome,
    /// The place at this node of the connection of each other node that dialled it.
    callers: [Option<u8>; NODES],
    /// Which of these dialled and weren't taken in yet, in the order of their numbers.
    dialling: [bool; NODES],
    /// The log of its last process that ended.
    pub(crate) log: Vec<u8>,
    pub(crate) counts: Counts,
    /// The call of its next process's wires that fails, counted from 1; 0 where none does.
    pub(crate) call: u64,
    /// The call that was to fail did.
    pub(crate) has_failed: bool,
    /// How many calls its next process makes before it is killed, and how many were.
    pub(crate) calls: u64,
    pub(crate) killed: u64,
    /// How long its next turn may wait, in microseconds.
    pub(crate) rest: u64,
}

/// Whether the call of this number was made of a wire, and so failed: else one of as many more does.
fn has_failed(wire: &mut MemoryWire, call: u64) -> bool {
    for _ in 0..call {
        if wire.draw().is_none() {
            return false;
        }
    }
    call > 0
}

/// How often each was told.
#[derive(Clone, Copy, Debug)]
pub(crate) struct Counts {
    pub(crate) quorum: u64,
    pub(crate) lost: u64,
    /// That a bot took seat 0, and that one was gone from there.
    pub(crate) seated: u64,
    pub(crate) left: u64,
    /// Of each seat that it was ordered to play for.
    pub(crate) ordered: [u64; 2],
    /// That a seat named a line that is none of it.
    pub(crate) other: u64,
    /// Who came to a seat without its token, and who found no place there.
    pub(crate) wrong: u64,
    pub(crate) turned_away: u64,
}

impl Counts {
    /// Counts what was told.
    fn count(&mut self, told: ServerNotice) {
        match told {
            ServerNotice::Quorum => self.quorum = self.quorum.saturating_add(1),
            ServerNotice::QuorumLost => self.lost = self.lost.saturating_add(1),
            ServerNotice::Seated { seat: 0 } => self.seated = self.seated.saturating_add(1),
            ServerNotice::Left { seat: 0 } => self.left = self.left.saturating_add(1),
            ServerNotice::Ordered { seat } => self.count_order(seat),
            ServerNotice::OtherLine { .. } => self.other = self.other.saturating_add(1),
            ServerNotice::WrongToken { count, .. } => {
                self.wrong = self.wrong.saturating_add(count as u64)
            }
            ServerNotice::TurnedAway { count, .. } => {
                self.turned_away = self.turned_away.saturating_add(count as u64)
            }
            _ => (),
        }
    }

    /// It was ordered to play for a seat.
    fn count_order(&mut self, seat: u8) {
        if let Some(count) = self.ordered.get_mut(seat as usize) {
            *count = count.saturating_add(1);
        }
    }
}

impl Place {
    /// A node without a process, whose disk has this.
    pub(crate) fn new(bytes: Vec<u8>, alloc: Global) -> Place {
        Place {
            server: None,
            bytes,
            down: 0,
            outcome: Outcome::GoesOn,
            callers: [None; NODES],
            dialling: [false; NODES],
            log: Vec::new(alloc),
            counts: Counts {
                quorum: 0,
                lost: 0,
                seated: 0,
                left: 0,
                ordered: [0, 0],
                other: 0,
                wrong: 0,
                turned_away: 0,
            },
            call: 0,
            has_failed: false,
            calls: ENDLESS,
            killed: 0,
            rest: 0,
        }
    }

    /// Its process begins, or ended at its start, since a call of its wires failed or it was killed there.
    pub(crate) fn begin(&mut self, server: Option<Server>) {
        if server.is_none() {
            self.has_failed = self.has_failed || self.call > 0;
            self.call = 0;
            self.note_killed(self.calls != ENDLESS);
        }
        self.server = server;
    }

    /// Its process was killed, or ended otherwise: the next one isn't killed in a turn.
    fn note_killed(&mut self, is_killed: bool) {
        if is_killed {
            self.killed = self.killed.saturating_add(1);
        }
        self.calls = ENDLESS;
    }

    /// Whether its process has made its last call.
    pub(crate) fn is_cut(&self) -> bool {
        match &self.server {
            Some(server) => server.wire().is_cut(),
            None => false,
        }
    }

    /// One turn of its process at this moment.
    pub(crate) fn turn(&mut self, alloc: Global, now: u64) -> Outcome {
        let Some(server) = &mut self.server else {
            return Outcome::GoesOn;
        };
        server.wire_mut().whole_mut().set_now(now);
        let (outcome, rest) = server.turn(alloc, STEP);
        self.rest = rest;
        outcome
    }

    /// Counts what its process has to tell.
    pub(crate) fn take_notices(&mut self) {
        for _ in 0..64 {
            let Some(server) = &mut self.server else {
                return;
            };
            let Some(told) = server.notice() else {
                return;
            };
            self.counts.count(told);
        }
    }

    /// The process ends: what its disk has stays, and its log is kept.
    pub(crate) fn die(&mut self, alloc: Global) -> Result<(), AllocError> {
        self.note_killed(self.is_cut());
        let Some(mut server) = self.server.take() else {
            return Ok(());
        };
        self.log = Vec::from_slice(alloc, server.wire().whole().log())?;
        self.has_failed = self.has_failed || has_failed(server.wire_mut().whole_mut(), self.call);
        self.call = 0;
        if let Some(disk) = server.station().node().disk() {
            self.bytes = Vec::from_slice(alloc, disk.whole().bytes())?;
        }
        self.callers = [None; NODES];
        self.dialling = [false; NODES];
        Ok(())
    }

    /// Whether its process runs, and the match is over there.
    pub(crate) fn is_over(&self) -> bool {
        match &self.server {
            Some(server) => server.station().node().table().over(),
            None => false,
        }
    }

    /// The wires of its process.
    pub(crate) fn wire(&mut self) -> Option<&mut MemoryWire> {
        match &mut self.server {
            Some(server) => Some(server.wire_mut().whole_mut()),
            None => None,
        }
    }

    /// What was written to a line is taken from it.
    pub(crate) fn take_written(
        &mut self,
        alloc: Global,
        line: Line,
    ) -> Result<Vec<u8>, AllocError> {
        match self.wire() {
            Some(wire) => {
                let bytes = Vec::from_slice(alloc, wire.written(line))?;
                wire.take_written(line);
                Ok(bytes)
            }
            None => Ok(Vec::new(alloc)),
        }
    }

    /// Whether a line has a connection.
    pub(crate) fn is_open(&mut self, line: Line) -> bool {
        match self.wire() {
            Some(wire) => wire.is_open(line),
            None => false,
        }
    }

    /// The connection of a line ends.
    pub(crate) fn end(&mut self, line: Line) {
        if let Some(wire) = self.wire() {
            wire.end(line);
        }
    }

    /// This comes over a line.
    pub(crate) fn come(&mut self, line: Line, bytes: &[u8]) -> Result<(), AllocError> {
        match self.wire() {
            Some(wire) => wire.come(line, bytes),
            None => Ok(()),
        }
    }

    /// The place of the connection of another node that dialled this one.
    pub(crate) fn caller(&self, other: u8) -> Option<u8> {
        match self.callers.get(other as usize) {
            Some(found) => *found,
            None => None,
        }
    }

    /// The connection of another node that dialled this one has this place from now on, or none.
    pub(crate) fn set_caller(&mut self, other: u8, found: Option<u8>) {
        if let Some(caller) = self.callers.get_mut(other as usize) {
            *caller = found;
        }
    }

    /// Another node has dialled this one and waits to be taken in, or doesn't.
    pub(crate) fn set_dialling(&mut self, other: u8, waits: bool) {
        if let Some(dialling) = self.dialling.get_mut(other as usize) {
            *dialling = waits;
        }
    }

    /// The place of one who dialled, was taken in and isn't known yet.
    fn new_caller(&mut self) -> Option<u8> {
        for place in 0..16u8 {
            let is_known = self.callers.iter().any(|known| *known == Some(place));
            if !is_known && self.is_open(Line::Caller(place)) {
                return Some(place);
            }
        }
        None
    }

    /// Another node dials this one: it is taken in, one after another.
    pub(crate) fn be_dialled(&mut self, other: u8) {
        let new = self.new_caller();
        if self.dialling.get(other as usize).copied() == Some(true) {
            if new.is_some() {
                self.set_dialling(other, false);
                self.set_caller(other, new);
            }
            return;
        }
        let is_free = !self.dialling.iter().any(|waits| *waits);
        if is_free && new.is_none() {
            self.set_dialling(other, true);
            if let Some(wire) = self.wire() {
                wire.call();
            }
        }
    }
}
