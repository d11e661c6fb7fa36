//! A node of a match of two players, over a disk in memory, and what comes to it.

ghost use Rattle.std.specs.Prelude.{◌≡◌, ◌<◌};
ghost use Rattle.dealer_node.specs.Seeing.{member_in};

use dealer_kind::{Config, Source};
use dealer_node::{Node, NodeFault, Out};
use match_log::{Name, SeatNames};
use promise_store::MemoryDisk;
use sample_games::L2;
use std::alloc::{AllocError, Global};

/// What a seat names the version by.
pub const VERSION: &[u8] = b"VERSION:2.0.0\r\n";

/// A match of so many hands, whose nodes, so many, draw their deals from seeds of their own.
pub fn config(alloc: Global, nodes: u8, hands: u32) -> Result<Option<Config>, AllocError> {
    let mut sources = Vec::new(alloc);
    for node in 0..nodes {
        sources.push(Source::Seed(u64::from(node) + 1))?;
    }
    let word = Vec::from_slice(alloc, b"l2.game")?;
    Ok(configured(word, hands, sources))
}

/// The match whose log names the game by this word, with these sources of deals.
fn configured(word: Vec<u8>, hands: u32, sources: Vec<Source>) -> Option<Config> {
    let game = game_def::read(L2).ok()?;
    let name = Name::new(b"workload")?;
    let names = SeatNames::read(b"alice|bob", 2)?;
    Config::new(game, name, word, names, hands, sources)
}

/// What comes to a node.
#[derive(Clone, Copy)]
pub enum Event<'a> {
    Start,
    Tick,
    /// The bytes of a frame, and the node that it is from.
    Frame(u8, &'a [u8]),
    /// A piece of the bytes of seat 0 or 1.
    Line(u8, &'a [u8]),
    /// A connection of seat 0 or 1.
    Connect(u8),
}

/// A node of a match of two players.
#[derive(Drop)]
pub struct Peer {
    pub node: Node<MemoryDisk>,
    /// The number of the match's last node.
    last: usize,
    ghost nodes: { last < (member_in node).nodes },
    ghost players: { (member_in node).setting.game.players ≡ 2 },
}

impl Peer {
    /// The node of this number, down, over an empty disk; none where the match has no such node, or not two players.
    pub fn new(alloc: Global, config: &Config, number: usize) -> Result<Option<Peer>, AllocError> {
        let nodes = config.nodes();
        if number >= nodes || config.game().players() != 2 {
            return Ok(None);
        }
        let disk = MemoryDisk::new(alloc, &[])?;
        let node = Node::new(alloc, config, number, disk)?;
        Ok(Some(Peer {
            node,
            last: nodes - 1,
        }))
    }

    /// Makes the node's store.
    pub fn create(&mut self) -> Result<(), NodeFault> {
        if self.node.running() {
            return Ok(());
        }
        self.node.create()
    }

    /// Lets the node take an event.
    pub fn step(&mut self, event: Event<'_>, out: &mut Out) -> Result<(), NodeFault> {
        match event {
            Event::Start => self.node.start(out),
            Event::Tick => self.node.on_tick(out),
            Event::Frame(from, bytes) => self
                .node
                .on_frame(usize::from(from).min(self.last), bytes, out),
            Event::Line(seat, bytes) => self.node.on_line(usize::from(seat.min(1)), bytes, out),
            Event::Connect(seat) => self.node.connect(usize::from(seat.min(1))),
        }
    }

    /// Stops the node. Its disk comes back as it was at the last sync.
    pub fn stop(&mut self) {
        self.node.stop(0);
    }

    /// The seat that is to act; none where no hand runs.
    pub fn to_act(&self) -> Option<u8> {
        let table = self.node.table();
        let hand = table.finished();
        let position = table.play(hand)?.to_act()?;
        Some(if (position % 2 == 1) == (hand % 2 == 1) {
            0
        } else {
            1
        })
    }
}
