//! The nodes of a match, whose frames are handed on in the order of sending.

use crate::counts::Counts;
use crate::mail::Mail;
use crate::peer::{Event, Peer, VERSION};
use dealer_kind::Config;
use dealer_node::Out;
use paxos_wire::limits::NODES;
use std::alloc::{AllocError, Global};

/// How many turns a match takes at most: a turn is an answer of a seat, or a tick.
const TURNS: u32 = 1_000_000;

/// How a match is played, whose seats both sit at node 0.
#[derive(Clone, Copy)]
pub enum Course {
    /// All nodes hear one another.
    Plain,
    /// No frame comes to node 1 or from there.
    Parted,
}

/// What stands behind a seat's newest line where it calls, and where it folds.
const CALL: &[u8] = b":c\r\n";

const FOLD: &[u8] = b":f\r\n";

/// The nodes of a match, and the frames between them.
pub struct Group {
    alloc: Global,
    peers: Vec<Peer>,
    mail: Mail,
    /// What the newest call made.
    out: Out,
    pub counts: Counts,
}

/// By hand, so that letting one go is one call for whoever owns it (docs/ARCHITECTURE.md, Habits).
impl Drop for Group {
    fn drop(self) {
        let Group {
            alloc: _,
            peers: _,
            mail: _,
            out: _,
            counts: _,
        } = self;
    }
}

impl Group {
    /// No node yet. It counts on from these.
    pub fn new(alloc: Global, course: Course, counts: Counts) -> Group {
        Group {
            alloc,
            peers: Vec::new(alloc),
            mail: Mail::new(alloc, matches!(course, Course::Parted)),
            out: Out::new(alloc),
            counts,
        }
    }

    /// Plays a match to its end, and counts the commands that each node knows then. An `Ok` of false: a node wasn't made.
    pub fn play_match(&mut self, config: &Config) -> Result<bool, AllocError> {
        if !self.begin(config)? {
            return Ok(false);
        }
        self.play()?;
        self.count_commands();
        Ok(true)
    }

    /// Adds the nodes of a match, over new stores, and starts them; seats sit down. An `Ok` of false: one of the nodes
    /// wasn't made.
    pub fn begin(&mut self, config: &Config) -> Result<bool, AllocError> {
        self.mail.make_room()?;
        for number in 0..config.nodes() {
            if !self.add_peer(config, number)? {
                return Ok(false);
            }
        }
        self.seat_all()?;
        Ok(true)
    }

    /// Adds the node of this number, and starts it. An `Ok` of false: it wasn't made.
    fn add_peer(&mut self, config: &Config, number: usize) -> Result<bool, AllocError> {
        self.peers.reserve(1)?;
        match Peer::new(self.alloc, config, number)? {
            Some(peer) => self.peers.push_reserved(peer),
            None => return Ok(false),
        }
        Ok(self.start_newest())
    }

    /// Makes the newest node's store and starts it; false where that fails.
    fn start_newest(&mut self) -> bool {
        match self.peers.last_mut() {
            Some(peer) => peer.create().is_ok() && peer.step(Event::Start, &mut self.out).is_ok(),
            None => false,
        }
    }

    /// Lets both seats sit down at node 0.
    fn seat_all(&mut self) -> Result<(), AllocError> {
        for seat in 0..2 {
            self.call(0, Event::Connect(seat))?;
            self.call(0, Event::Line(seat, VERSION))?;
        }
        Ok(())
    }

    /// Lets a node take an event, and keeps what it made.
    fn call(&mut self, node: u8, event: Event<'_>) -> Result<(), AllocError> {
        let Some(peer) = self.peers.get_mut(usize::from(node)) else {
            return Ok(());
        };
        self.out.clear();
        self.counts
            .count_call(peer.step(event, &mut self.out).is_err());
        self.mail.keep(node, &self.out)
    }

    /// Delivers the frame of this number; to a node that is down it is lost. An `Ok` of false: there is none.
    fn deliver(&mut self, number: usize) -> Result<bool, AllocError> {
        let Some((sent, bytes)) = self.mail.frame(number) else {
            return Ok(false);
        };
        let Some(peer) = self.peers.get_mut(usize::from(sent.to)) else {
            return Ok(false);
        };
        self.counts.count_frame(bytes);
        self.out.clear();
        if peer.node.running() {
            let event = Event::Frame(sent.from, bytes);
            self.counts
                .count_call(peer.step(event, &mut self.out).is_err());
        }
        self.mail.keep(sent.to, &self.out)?;
        Ok(true)
    }

    /// Delivers all frames that wait, those that come of it too, and forgets them.
    fn deliver_all(&mut self) -> Result<(), AllocError> {
        for number in 0..usize::MAX {
            if !self.deliver(number)? {
                break;
            }
        }
        self.mail.forget_frames();
        Ok(())
    }

    /// Lets a node tick, and delivers all frames that come of it.
    pub fn tick(&mut self, node: u8) -> Result<(), AllocError> {
        self.call(node, Event::Tick)?;
        self.deliver_all()
    }

    /// How many commands a node knows from the first on.
    pub fn front(&self, node: u8) -> u32 {
        match self.peers.get(usize::from(node)) {
            Some(peer) => peer.node.front(),
            None => 0,
        }
    }

    /// The first node at which the match isn't over.
    fn unfinished(&self) -> Option<u8> {
        for (peer, number) in self.peers.iter().zip(0..NODES) {
            if !peer.node.table().over() {
                return Some(number);
            }
        }
        None
    }

    /// Lets the seat that is to act call or fold. Where none is, nothing comes of it.
    fn answer(&mut self, action: &[u8]) -> Result<(), AllocError> {
        let Some(seat) = self.to_act() else {
            return Ok(());
        };
        let line = self.mail.answer(self.alloc, seat, action)?;
        self.call(0, Event::Line(seat, &line))
    }

    /// The seat that is to act at node 0.
    fn to_act(&self) -> Option<u8> {
        self.peers.first()?.to_act()
    }

    /// Plays the match to its end: all calls. Where nothing moves, a node ticks at which the match isn't over.
    fn play(&mut self) -> Result<(), AllocError> {
        for _ in 0..TURNS {
            self.deliver_all()?;
            let Some(node) = self.unfinished() else {
                return Ok(());
            };
            if node == 0 {
                self.answer(CALL)?;
            }
            if self.mail.is_empty() {
                self.call(node, Event::Tick)?;
            }
        }
        Ok(())
    }

    /// Plays by folds alone until node 0 knows so many commands.
    pub fn fold_to(&mut self, commands: u32) -> Result<(), AllocError> {
        for _ in 0..TURNS {
            self.deliver_all()?;
            if self.front(0) >= commands {
                break;
            }
            self.answer(FOLD)?;
            if self.mail.is_empty() {
                self.call(0, Event::Tick)?;
            }
        }
        Ok(())
    }

    /// Stops all nodes, and starts them. What they send as they start is lost.
    pub fn begin_anew(&mut self) -> Result<(), AllocError> {
        for peer in &mut self.peers {
            peer.stop();
        }
        for node in 0..NODES {
            self.call(node, Event::Start)?;
        }
        self.mail.forget_frames();
        Ok(())
    }

    /// Counts the commands that each node knows.
    fn count_commands(&mut self) {
        for (count, peer) in self.counts.commands.iter_mut().zip(self.peers.iter()) {
            *count = count.wrapping_add(u64::from(peer.node.front()));
        }
    }
}
