use node_links::{KeptFrame, PeerFault, Settings};
use peer_codes::Life;
use std::net::IpAddr;

/// What a process is told of its peers.
#[derive(Drop)]
pub enum Notice {
    /// A frame came of a peer.
    Frame {
        from: u8,
        frame: KeptFrame,
    },
    /// A connection to a peer is open. Its store has this life, where none was kept of it: it is to be kept.
    Joined {
        peer: u8,
        life: Option<Life>,
    },
    /// The connection to a peer ended.
    Gone {
        peer: u8,
    },
    /// A connection to a peer is closed by a fault: to one that was dialled, to one that was there, or to one whose store,
    /// or this node's, was made anew. The source is the address at its other end, where it is known. The same fault of the
    /// same peer is told once in ten seconds.
    Refused {
        peer: u8,
        fault: PeerFault,
        source: Option<IpAddr>,
    },
    /// Dials of a peer have come to nothing for a minute; the last ended by itself, or wasn't answered. It is told once a
    /// minute.
    Unreached {
        peer: u8,
        refuses: bool,
    },
    /// So many callers who aren't known were refused since the last such notice, the last of them by this fault, from an
    /// address of this peer, or from others; of each number and each peer there is one a second at most.
    Strangers {
        peer: Option<u8>,
        count: u32,
        fault: PeerFault,
    },
    /// The settings of a peer's process; they are told once a connection, where the peer tells them.
    Settings {
        peer: u8,
        settings: Settings,
    },
}
