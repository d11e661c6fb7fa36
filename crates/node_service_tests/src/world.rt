//! All processes of a match, turn after turn.

use crate::bot::Bot;
use crate::cut_disk::CutDisk;
use crate::place::{NODES, Place};
use crate::samples::{Waiting, disk_of, new_disk, server};
use dealer_node::Node;
use node_service::Outcome;
use promise_store::MemoryDisk;
use std::alloc::{AllocError, Global};
use std::process::Abort;

/// A turn of the world takes so many microseconds.
pub(crate) const STEP: u64 = 1_000;

/// All processes of a match, and the bots of its two seats.
pub(crate) struct World {
    pub(crate) alloc: Global,
    pub(crate) nodes: u8,
    pub(crate) hands: u32,
    pub(crate) now: u64,
    pub(crate) places: Vec<Place>,
    pub(crate) bots: Vec<Bot>,
    /// Pairs of which nothing comes through, by sender and receiver.
    pub(crate) cuts: [[bool; NODES]; NODES],
    /// How long seats are waited for, of processes that begin from now on.
    pub(crate) waiting: Waiting,
}

/// By hand, so that letting one go is one call for whoever owns it.
impl Drop for World {
    fn drop(self) {
        let World {
            alloc: _,
            nodes: _,
            hands: _,
            now: _,
            places: _,
            bots: _,
            cuts: _,
            waiting: _,
        } = self;
    }
}

impl World {
    /// All processes of a match of so many hands, whose bots sit at these nodes and do this. The wires of this node's first
    /// process fail in the call of this number, counted from 1; with 0 none does.
    pub(crate) fn new(
        rt: &impl Abort,
        alloc: Global,
        nodes: u8,
        hands: u32,
        at: [u8; 2],
        action: u8,
        failing: (u8, u64),
    ) -> Result<World, AllocError> {
        let mut places = Vec::new(alloc);
        for node in 0..nodes {
            let disk = new_disk(rt, alloc, node, nodes)?;
            let mut place = Place::new(Vec::from_slice(alloc, disk.bytes())?, alloc);
            place.call = if failing.0 == node { failing.1 } else { 0 };
            places.push(place)?;
        }
        let mut bots = Vec::new(alloc);
        bots.push(Bot::new(alloc, 0, at[0], action))?;
        bots.push(Bot::new(alloc, 1, at[1], action))?;
        Ok(World {
            alloc,
            nodes,
            hands,
            now: 0,
            places,
            bots,
            cuts: [[false; NODES]; NODES],
            waiting: Waiting {
                patience: None,
                start: 0,
                gives_up: true,
                has_tokens: false,
            },
        })
    }

    /// Begins a process where one is to begin.
    fn begin(&mut self, rt: &impl Abort, node: u8) -> Result<(), AllocError> {
        let (nodes, hands, now, alloc) = (self.nodes, self.hands, self.now, self.alloc);
        let waiting = self.waiting;
        let Some(place) = self.places.get_mut(node as usize) else {
            return Ok(());
        };
        if place.server.is_some() || place.outcome != Outcome::GoesOn {
            return Ok(());
        }
        if place.down > 0 {
            place.down -= 1;
            return Ok(());
        }
        let disk = disk_of(rt, alloc, &place.bytes)?;
        let (call, calls) = (place.call, place.calls);
        place.begin(server(
            rt, alloc, node, nodes, hands, disk, call, calls, now, waiting,
        )?);
        Ok(())
    }

    /// One turn of a node's process.
    fn turn(&mut self, node: u8) -> Result<(), AllocError> {
        let (alloc, now) = (self.alloc, self.now);
        let Some(place) = self.places.get_mut(node as usize) else {
            return Ok(());
        };
        let outcome = place.turn(alloc, now);
        place.take_notices();
        if place.is_cut() {
            return self.end_killed(node);
        }
        match outcome {
            Outcome::GoesOn => Ok(()),
            Outcome::Over | Outcome::StoreOlder => {
                place.outcome = outcome;
                self.kill(node)
            }
            _ => self.kill(node),
        }
    }

    /// The process of a node was killed in its turn: its bots read what it wrote before, and it begins again.
    fn end_killed(&mut self, node: u8) -> Result<(), AllocError> {
        let nodes = self.nodes;
        for bot in self.bots.iter_mut() {
            let Some(place) = self.places.get_mut(node as usize) else {
                continue;
            };
            if bot.at == node {
                if let Some(wire) = place.wire() {
                    bot.act(wire, nodes)?;
                }
            }
        }
        self.kill(node)
    }

    /// The process of a node dies, and begins again after so many turns; one where the match is over is spared, since the
    /// others may end before it is back.
    pub(crate) fn die(&mut self, node: u8, down: u64) -> Result<(), AllocError> {
        let Some(place) = self.places.get_mut(node as usize) else {
            return Ok(());
        };
        if place.is_over() {
            return Ok(());
        }
        place.down = down;
        self.kill(node)
    }

    /// Whether each node has a process.
    pub(crate) fn is_whole(&self) -> bool {
        self.places.iter().all(|place| place.server.is_some())
    }

    /// What the bots do.
    fn play(&mut self) -> Result<(), AllocError> {
        let nodes = self.nodes;
        for bot in self.bots.iter_mut() {
            let Some(place) = self.places.get_mut(bot.at as usize) else {
                continue;
            };
            match place.wire() {
                Some(wire) => bot.act(wire, nodes)?,
                None => bot.go_on(nodes),
            }
        }
        Ok(())
    }

    /// One turn of the world: each process begins that is to, and takes a turn; then all that was written is carried.
    pub(crate) fn step(&mut self, rt: &impl Abort) -> Result<(), AllocError> {
        self.now = self.now.saturating_add(STEP);
        for node in 0..self.nodes {
            self.begin(rt, node)?;
            self.turn(node)?;
        }
        self.carry_all()?;
        self.play()
    }

    /// Whether each process ended with the match over, or will never begin again.
    pub(crate) fn is_over(&self) -> bool {
        self.places
            .iter()
            .all(|place| place.outcome == Outcome::Over)
    }

    /// Whether a node has no process, or the match is over there.
    pub(crate) fn is_over_at(&self, node: usize) -> bool {
        match self.places.get(node) {
            Some(place) => place.server.is_none() || place.is_over(),
            None => true,
        }
    }

    /// A node, where it has a process.
    fn node(&self, number: u8) -> Option<&Node<CutDisk<MemoryDisk>>> {
        let server = self.places.get(number as usize)?.server.as_ref()?;
        Some(server.station().node())
    }

    /// How many commands a node has applied; 0 while it has no process.
    pub(crate) fn front_of(&self, number: u8) -> u32 {
        match self.node(number) {
            Some(node) => node.front(),
            None => 0,
        }
    }

    /// The ballot that a node has promised, if it has a process and has promised one, as a number: by its round, then its node.
    pub(crate) fn promised(&self, number: u8) -> Option<u64> {
        let ballot = self.node(number)?.promised()?;
        Some(u64::from(ballot.round) << 8 | u64::from(ballot.node))
    }

    /// The greatest ballot that a node knows another one to have promised, as such a number.
    pub(crate) fn heard(&self, number: u8, other: u8) -> Option<u64> {
        let server = self.places.get(number as usize)?.server.as_ref()?;
        let ballot = server.heard(other)?;
        Some(u64::from(ballot.round) << 8 | u64::from(ballot.node))
    }

    /// A node's process dies, and its disk has these bytes when it begins again.
    pub(crate) fn put_back(&mut self, number: u8, bytes: Vec<u8>) -> Result<(), AllocError> {
        self.kill(number)?;
        if let Some(place) = self.places.get_mut(number as usize) {
            place.bytes = bytes;
        }
        Ok(())
    }

    /// Whether a node prepares or leads a ballot.
    pub(crate) fn campaigns(&self, node: u8) -> bool {
        match self.node(node) {
            Some(node) => node.campaigns(),
            None => false,
        }
    }

    /// The greatest front of all that run.
    pub(crate) fn front(&self) -> u32 {
        let mut most = 0;
        for place in self.places.iter() {
            if let Some(server) = &place.server {
                most = most.max(server.station().node().front());
            }
        }
        most
    }
}
