use node_links::PeerFault;
use paxos_wire::Ballot;
use peer_codes::Life;
use seat_session::SessionFault;
use std::net::IpAddr;

/// What match files of one match may say differently.
#[derive(Clone, Copy, Debug, PartialEq, Eq)]
pub enum Setting {
    /// How long a seat is waited for until it is played for.
    Patience,
    /// How long seats are waited for that haven't come yet.
    Start,
    /// What is done about a seat at which nobody is.
    Away,
    /// The tokens of seats.
    Tokens,
}

/// What a process may tell of a turn, one line of standard error each. Peers and seats are counted from 0.
#[derive(Clone, Copy, Debug)]
pub enum ServerNotice {
    /// A connection to a peer is open; its store has this life, where none was kept of it: it is to be kept before the next
    /// turn, by which frames of the peer are taken.
    Joined {
        peer: u8,
        life: Option<Life>,
    },
    /// The connection to a peer ended.
    Gone {
        peer: u8,
    },
    /// A connection to a peer is closed by a fault: to one that was dialled, to one that was there, or to one whose store, or
    /// this node's, was made anew. The source is the address of its other end, where that is known.
    Refused {
        peer: u8,
        fault: PeerFault,
        source: Option<IpAddr>,
    },
    /// So many callers who aren't known were refused since this was last told, the last of them by this fault; all from an
    /// address of this peer, or from others.
    Callers {
        peer: Option<u8>,
        count: u32,
        fault: PeerFault,
    },
    /// Dials of a peer have come to nothing for a minute: its address refuses, or nobody answers there. It is told once a minute.
    Unreached {
        peer: u8,
        refuses: bool,
    },
    /// The match file of a peer's process says something else than that of this one: these milliseconds there, and those
    /// here, 0 where a file says nothing. Of tokens both are 0. Each setting is told once a connection.
    Setting {
        peer: u8,
        what: Setting,
        there: u32,
        here: u32,
    },
    /// A bot sits at a seat; it isn't told where that is to come again later.
    Seated {
        seat: u8,
    },
    /// The bot of a seat is gone, or is let go of.
    Left {
        seat: u8,
    },
    /// A fault in what a seat sent, while this was the newest hand, counted from 0. The seat itself is told nothing.
    Faulty {
        seat: u8,
        fault: SessionFault,
        hand: Option<u32>,
    },
    /// So many came to a seat since this was last told of it who showed another token than its own, or none; the last of them
    /// from this address, where it is known. It is told once a second at most.
    WrongToken {
        seat: u8,
        count: u32,
        source: Option<IpAddr>,
    },
    /// So many who came to a seat's port since this was last told of it were closed, since there was no place for them. It is told
    /// once a second at most.
    TurnedAway {
        seat: u8,
        count: u32,
    },
    /// This node campaigns, and a peer is so many commands behind it; its slowest answer took so many microseconds lately. It is told
    /// once a minute at most.
    Behind {
        peer: u8,
        behind: u32,
        slowest: u64,
    },
    /// The bot of a seat named a line that is none of this seat in this match: it is told so, and let go of.
    OtherLine {
        seat: u8,
    },
    /// It was ordered that this seat, which is to act, is played for, and a default action waits for it since.
    Ordered {
        seat: u8,
    },
    /// The seat hasn't come yet, and the match waits for it. It is told once a minute.
    Missing {
        seat: u8,
    },
    /// The seat is to act, and nothing has gone on for a while.
    Waits {
        seat: u8,
    },
    /// The node and the peers that it hears are more than half of all nodes.
    Quorum,
    /// They have not been for a while: the bots of seats are told to come again later, and let go of.
    QuorumLost,
    /// This node campaigns in a ballot, where another node did so last, or none.
    Campaigns {
        ballot: Ballot,
    },
}
