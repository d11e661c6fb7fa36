//! A node of the match: its process, if it has one, what its disk keeps, and what it keeps of others: their lives, and what they promised.

use crate::plan::Plan;
use dealer_kind::Config;
use dealer_node::NodeFault;
use node_links::{Own, Settings};
use node_peers::{NodeAddress, Peers};
use node_seats::Seats;
use node_service::{LocalNode, NodeServer, Outcome, ServerNotice, Terms};
use node_status::Askers;
use paxos_wire::Ballot;
use peer_codes::{Key, Life, MatchDigest};
use stations::Station;
use std::alloc::{AllocError, Global};
use std::net::{IpAddr, Ipv4Addr};
use test_kit::{Clock, MostRead, SimDisk, SimWire};
use traffic::{NODES, Order};

/// A peer counts as absent at first after so long.
const SILENCE: u64 = 1_000_000;

/// A turn takes so long at least, where nothing else is said.
const TURN: u64 = 10;

/// What others promised is kept once in so long at most.
const KEEPS: u64 = 1_000_000;

/// A store's header has so many bytes.
const HEADER: usize = 9;

/// A new store of a node.
fn new_store(alloc: Global, number: u8, nodes: u8) -> Result<Vec<u8>, AllocError> {
    Vec::from_slice(alloc, &[b'H', b'D', b'J', b'2', number, nodes, 0, 0, 0])
}

pub(crate) type Server<'a> = NodeServer<SimDisk<'a>, SimWire<'a>>;

/// A node of the match.
#[derive(Drop)]
pub(crate) struct Place<'a> {
    pub(crate) number: u8,
    pub(crate) clock: &'a Clock,
    pub(crate) server: Option<Server<'a>>,
    /// What the disk keeps while there is no process.
    pub(crate) image: Vec<u8>,
    /// A copy of what the disk kept at a moment before, if one was made.
    copy: Option<Vec<u8>>,
    /// The lives that it keeps of others.
    pub(crate) lives: Vec<Option<Life>>,
    /// The greatest ballots that it knows others to have promised, as it keeps them, and when it kept them last.
    heard: Vec<Option<Ballot>>,
    kept: u64,
    /// When its process begins; never where there is one.
    pub(crate) begins: u64,
    /// When its next turn begins.
    pub(crate) next: u64,
    /// When its process dies.
    pub(crate) dies: u64,
    /// When it left its last turn; never where it died in it.
    left: u64,
    /// How long that turn may wait.
    rest: u64,
    /// How long a turn takes at least.
    least: u64,
    /// No turn begins before that.
    paused: u64,
    /// How many calls of its disk were told.
    pub(crate) told_calls: usize,
    /// How many processes it has begun.
    starts: u64,
    /// How many times its store was replaced by a new one.
    replaced: u8,
    /// It is of another match.
    is_other: bool,
    /// Its machine is gone: who comes to it isn't even refused.
    pub(crate) is_gone: bool,
    /// Its last process ended well.
    pub(crate) is_over: bool,
}

/// Why a process didn't begin.
#[derive(Clone, Copy, Debug)]
pub(crate) enum Refusal {
    NoMatch,
    Fault(NodeFault),
}

impl<'a> Place<'a> {
    /// A node without a process, whose disk has a new store.
    pub(crate) fn new(
        alloc: Global,
        clock: &'a Clock,
        number: u8,
        nodes: u8,
    ) -> Result<Place<'a>, AllocError> {
        let (mut lives, mut heard) = (Vec::new(alloc), Vec::new(alloc));
        for _ in 0..NODES {
            lives.push(None)?;
            heard.push(None)?;
        }
        Ok(Place {
            number,
            clock,
            server: None,
            image: new_store(alloc, number, nodes)?,
            copy: None,
            lives,
            heard,
            kept: 0,
            begins: u64::MAX,
            next: u64::MAX,
            dies: u64::MAX,
            left: 0,
            rest: 0,
            least: TURN,
            paused: 0,
            told_calls: 0,
            starts: 0,
            replaced: 0,
            is_other: false,
            is_gone: false,
            is_over: false,
        })
    }

    /// The byte of which the life of its store is made.
    fn life(&self) -> u8 {
        self.number
            .saturating_add(1)
            .saturating_add(self.replaced.saturating_mul(16))
    }

    /// What the disk keeps is another from now on, where there is no process: by WHAT 0 a new store of another life, by 1 nothing, by 2
    /// this one, by 3 it has one bit that is another. By 4 what its process says is of another match. By 5 a copy is made of what the disk
    /// keeps, and by 6 it is put back, if there is one.
    pub(crate) fn change_store(
        &mut self,
        alloc: Global,
        nodes: u8,
        order: &Order,
        other: Vec<u8>,
    ) -> Result<(), AllocError> {
        if self.server.is_some() {
            return Ok(());
        }
        match order.number(1) {
            0 => {
                self.image = new_store(alloc, self.number, nodes)?;
                self.replaced = self.replaced.saturating_add(1);
            }
            1 => self.image.clear(),
            2 => self.image = other,
            3 => self.flip(order.number(2)),
            5 => self.copy = Some(Vec::from_slice(alloc, &self.image)?),
            6 => self.put_back(alloc)?,
            _ => self.is_other = true,
        }
        Ok(())
    }

    /// The disk keeps from now on what it kept when a copy was made, if one was.
    fn put_back(&mut self, alloc: Global) -> Result<(), AllocError> {
        if let Some(copy) = &self.copy {
            self.image = Vec::from_slice(alloc, copy)?;
        }
        Ok(())
    }

    /// One bit behind the header of what the disk keeps is another from now on.
    fn flip(&mut self, number: u64) {
        let Some(records) = self.image.len().checked_sub(HEADER) else {
            return;
        };
        if records == 0 {
            return;
        }
        let place = (number % records as u64) as usize;
        if let Some(byte) = self.image.get_mut(place.saturating_add(HEADER)) {
            *byte ^= 1 << (number / 8 % 8) as u32;
        }
    }

    /// What its process says of itself.
    fn own(&self, nodes: u8, has_key: bool) -> Own {
        Own {
            number: self.number,
            nodes,
            digest: MatchDigest {
                bytes: [if self.is_other { 8 } else { 9 }; 32],
            },
            life: Life {
                bytes: [self.life(); 16],
            },
            key: if has_key {
                Some(Key { bytes: [5; 32] })
            } else {
                None
            },
        }
    }

    /// What its process knows of its peers.
    fn peers(&self, alloc: Global, plan: &Plan, settings: Settings) -> Result<Peers, AllocError> {
        let own = self.own(plan.nodes, plan.has_key);
        let mut peers = Peers::new(alloc, own, &self.lives, SILENCE)?;
        for (peer, heard) in self.heard.iter().enumerate() {
            if let Some(ballot) = heard {
                peers.set_heard(peer.min(NODES) as u8, *ballot);
            }
        }
        let mut addresses = Vec::new(alloc);
        for node in self.number.saturating_add(1)..plan.nodes {
            let at = IpAddr::V4(Ipv4Addr::new(10, 0, 0, node));
            addresses.push(NodeAddress { node, at })?;
        }
        peers.set_settings(settings);
        peers.set_addresses(addresses);
        Ok(peers)
    }

    /// Its process begins; an inner `Err` says why it can't.
    pub(crate) fn begin(
        &mut self,
        alloc: Global,
        plan: &Plan,
        next: u32,
    ) -> Result<Result<Outcome, Refusal>, AllocError> {
        let Some(config) = plan.config(alloc)? else {
            return Ok(Err(Refusal::NoMatch));
        };
        self.starts = self.starts.saturating_add(1);
        self.told_calls = 0;
        self.is_gone = false;
        let disk = SimDisk::new(alloc, self.clock, &self.image)?;
        self.begin_with(alloc, plan, config, disk, next)
    }

    /// The same once there are the match and the disk.
    fn begin_with(
        &mut self,
        alloc: Global,
        plan: &Plan,
        config: Config,
        disk: SimDisk<'a>,
        next: u32,
    ) -> Result<Result<Outcome, Refusal>, AllocError> {
        if (self.number as usize) >= config.nodes() {
            return Ok(Err(Refusal::NoMatch));
        }
        let players = config.game().players().min(10) as u8;
        let station = match Station::open(alloc, config, self.number, disk) {
            Ok(station) => station,
            Err(fault) => return Ok(Err(Refusal::Fault(fault))),
        };
        let seed = self
            .starts
            .wrapping_mul(16)
            .wrapping_add(self.number as u64);
        let mut wire = SimWire::new(alloc, self.clock, seed)?;
        wire.ends.begin_turn(next);
        let settings = plan.settings(self.number);
        let peers = self.peers(alloc, plan, settings)?;
        let seats = Seats::new(alloc, players, plan.tokens(alloc, players)?)?;
        let askers = Askers::new(alloc)?;
        let terms = Terms {
            patience: plan.patience,
            start: plan.start,
            gives_up: !plan.waits,
            settings: Some(settings),
        };
        let member = LocalNode::new(alloc, station);
        let mut server = NodeServer::new(alloc, member, wire, peers, seats, askers, terms);
        let outcome = server.start();
        self.server = Some(server);
        self.leave(0);
        Ok(Ok(outcome))
    }

    /// Its process begins at this moment, unless there is one, or the match is over there.
    pub(crate) fn begin_at(&mut self, moment: u64) {
        if self.server.is_none() && !self.is_over {
            self.begins = moment;
        }
    }

    /// Each call of its wires takes so long from now on, and each of its turns at least so long.
    pub(crate) fn set_cost(&mut self, call: u64, turn: u64) {
        self.clock.set_call(call);
        self.least = turn.max(TURN);
    }

    /// No turn of its process begins before this moment.
    pub(crate) fn pause(&mut self, until: u64) {
        self.paused = self.paused.max(until);
        if self.next != u64::MAX {
            self.next = self.next.max(until);
        }
    }

    /// Something came for its process: its next turn begins then, if it isn't in one.
    pub(crate) fn wake(&mut self, now: u64) {
        if self.server.is_none() || self.left == u64::MAX {
            return;
        }
        let soonest = self
            .left
            .saturating_add(self.least)
            .max(now)
            .max(self.paused);
        self.next = self.next.min(soonest);
    }

    /// A connection of its process has room for so many bytes more.
    pub(crate) fn make_room(&mut self, connection: u32, count: usize, now: u64) {
        let was_full = match &mut self.server {
            Some(server) => server.wire_mut().ends.make_room(connection, count),
            None => false,
        };
        if was_full {
            self.wake(now);
        }
    }

    /// The disk of its process.
    pub(crate) fn disk(&self) -> Option<&SimDisk<'a>> {
        match &self.server {
            Some(server) => server.station().node().disk(),
            None => None,
        }
    }

    /// What its process read in one turn at most.
    pub(crate) fn most_read(&self) -> Option<MostRead> {
        match &self.server {
            Some(server) => Some(server.wire().ends.most_read()),
            None => None,
        }
    }

    /// What its process has to tell next, and when. A life that was seen for the first time is kept.
    pub(crate) fn notice(&mut self) -> Option<(u64, ServerNotice)> {
        if self.clock.is_dead() {
            return None;
        }
        let moment = self.clock.now();
        let told = match &mut self.server {
            Some(server) => server.notice()?,
            None => return None,
        };
        if let ServerNotice::Joined {
            peer,
            life: Some(life),
        } = told
        {
            if let Some(kept) = self.lives.get_mut(peer as usize) {
                *kept = Some(life);
            }
        }
        Some((moment, told))
    }

    /// One turn of its process, whose next connection has this number.
    pub(crate) fn turn(&mut self, alloc: Global, next: u32) -> Outcome {
        let most = self.rest;
        let Some(server) = &mut self.server else {
            self.next = u64::MAX;
            return Outcome::GoesOn;
        };
        server.wire_mut().ends.begin_turn(next);
        let (outcome, rest) = server.turn(alloc, most);
        self.leave(rest);
        self.keep_heard();
        outcome
    }

    /// Keeps what its process knows others to have promised, of those whose life it keeps, unless it did so a moment before.
    fn keep_heard(&mut self) {
        let now = self.clock.now();
        if self.clock.is_dead() || now < self.kept.saturating_add(KEEPS) {
            return;
        }
        let Some(server) = &self.server else {
            return;
        };
        self.kept = now;
        for peer in 0..NODES {
            let told = server.heard(peer as u8);
            let has_life = matches!(self.lives.get(peer), Some(Some(_)));
            if let Some(heard) = self.heard.get_mut(peer) {
                if has_life && told.is_some() {
                    *heard = told;
                }
            }
        }
    }

    /// Its process has left a turn, or begun, and may wait so long; one that died in it has no next one.
    fn leave(&mut self, rest: u64) {
        self.rest = rest.max(self.least);
        if self.clock.is_dead() {
            self.left = u64::MAX;
            self.next = u64::MAX;
            return;
        }
        self.left = self.clock.now();
        self.next = self.left.saturating_add(self.rest).max(self.paused);
    }

    /// The process is gone, and the disk keeps what the number picks; without one all that was written.
    pub(crate) fn die(&mut self, alloc: Global, pick: Option<u64>) -> Result<(), AllocError> {
        let Some(server) = self.server.take() else {
            return Ok(());
        };
        if let Some(disk) = server.station().node().disk() {
            self.image = match pick {
                Some(pick) => disk.image(alloc, pick)?,
                None => Vec::from_slice(alloc, disk.bytes())?,
            };
        }
        self.next = u64::MAX;
        self.told_calls = 0;
        Ok(())
    }
}
