//! What a line says of a node.

use match_log::Name;
use paxos_wire::Ballot;

/// How a node is.
#[derive(Clone, Copy)]
pub struct Status<'a> {
    /// Its number, counted from 0.
    pub node: u8,
    /// Its front: so many slots in a row are known to be chosen.
    pub front: u32,
    /// The hand that runs or ran last, counted from 0; none where none was dealt yet.
    pub hand: Option<u32>,
    /// The match is over here.
    pub over: bool,
    /// It learns what was chosen before, and its front says how far it is.
    pub replaying: bool,
    /// The ballot that it promised last, if it promised one.
    pub promised: Option<Ballot>,
    /// It leads: a quorum promised its ballot, and it was not refused since.
    pub leads: bool,
    /// It and the peers that are present are a majority.
    pub quorum: bool,
    /// The other nodes, by number.
    pub peers: &'a [PeerStatus],
    /// The seats, in order.
    pub seats: &'a [SeatStatus],
    /// An act of one of its seats waits to be chosen.
    pub pending: bool,
    /// So many commands were applied in the last whole second.
    pub commands: u32,
}

/// How a peer is, by its last beat.
#[derive(Clone, Copy, Debug)]
pub enum PeerStatus {
    /// It is heard.
    Present {
        number: u8,
        front: u32,
        campaigns: bool,
    },
    /// It isn't.
    Gone {
        number: u8,
    },
}

/// How a seat is.
#[derive(Clone, Copy, Debug)]
pub struct SeatStatus {
    pub name: Name,
    pub sits: Sits,
    /// So many bytes wait for its bot here.
    pub backlog: usize,
}

/// Where the bot of a seat sits.
#[derive(Clone, Copy, Debug, PartialEq, Eq)]
pub enum Sits {
    /// At this node.
    Here,
    /// At another node, by its beats.
    Elsewhere,
    /// At none.
    Nowhere,
}
