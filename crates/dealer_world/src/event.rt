ghost use Rattle.std.specs.Prelude.{◌≡◌, ◌↔◌, length, IsTrue};
ghost use Rattle.dealer_world.specs.Events.{node_of, bytes_in};
ghost use Rattle.dealer_world.specs.Stepping.{IsFor};

/// What comes to one node of a cluster. Nodes and seats are counted from 0.
#[derive(Debug, Drop)]
pub enum Event {
    /// A frame of a node to another, all its bytes.
    Frame { from: u8, to: u8, bytes: Vec<u8> },
    /// Bytes that a seat sent to a node.
    Line { node: u8, seat: u8, bytes: Vec<u8> },
    /// The node's clock.
    Tick { node: u8 },
    /// It is ordered at a node that the player to act is played for.
    Away { node: u8 },
    /// A seat connects to a node.
    Connect { node: u8, seat: u8 },
    /// A seat is dropped at a node.
    Drop { node: u8, seat: u8 },
    /// A node and its disk stop; `pick` chooses what of the disk is left where that is ours to choose.
    Stop { node: u8, pick: u64 },
    /// A node starts from what its disk has.
    Start { node: u8 },
}

impl Event {
    /// The node to which it comes.
    pub fn node(&self) -> u8
        ensures { result ≡ node_of self.now }
    {
        match self {
            Event::Frame { to, .. } => *to,
            Event::Line { node, .. }
            | Event::Tick { node }
            | Event::Away { node }
            | Event::Connect { node, .. }
            | Event::Drop { node, .. }
            | Event::Stop { node, .. }
            | Event::Start { node } => *node,
        }
    }

    /// Whether its nodes and its seat are of a match of so many nodes and players.
    pub fn is_for(&self, nodes: usize, players: usize) -> bool
        ensures { IsTrue result ↔ IsFor nodes players self.now }
    {
        match self {
            Event::Frame { from, to, .. } => (*from as usize) < nodes && (*to as usize) < nodes,
            Event::Line { node, seat, .. }
            | Event::Connect { node, seat }
            | Event::Drop { node, seat } => (*node as usize) < nodes && (*seat as usize) < players,
            Event::Tick { node }
            | Event::Away { node }
            | Event::Stop { node, .. }
            | Event::Start { node } => (*node as usize) < nodes,
        }
    }

    /// How many bytes it brings.
    pub(crate) fn size(&self) -> usize
        ensures { result ≡ length (bytes_in self.now) }
    {
        match self {
            Event::Frame { bytes, .. } | Event::Line { bytes, .. } => bytes.len(),
            Event::Tick { .. }
            | Event::Away { .. }
            | Event::Connect { .. }
            | Event::Drop { .. }
            | Event::Stop { .. }
            | Event::Start { .. } => 0,
        }
    }
}
