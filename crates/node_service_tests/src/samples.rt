//! The match that is played, of alice and bob, limit, the stores of its nodes, and their processes.

use crate::calls_left::CallsLeft;
use crate::cut_disk::CutDisk;
use crate::cut_wire::CutWire;
use dealer_kind::{Config, Source};
use match_log::{Name, SeatNames};
use matchstate::read_deal;
use node_links::Own;
use node_peers::Peers;
use node_seats::{Seats, TokenDigest};
use node_service::{LocalNode, NodeServer, Outcome, Terms};
use node_status::Askers;
use node_wires::MemoryWire;
use peer_codes::{Life, MatchDigest};
use promise_store::{Disk, MemoryDisk};
use sample_games::L2;
use stations::Station;
use std::alloc::{AllocError, Global};
use std::process::Abort;

/// The process of a node over a disk and wires in memory, which may be cut.
pub(crate) type Server = NodeServer<CutDisk<MemoryDisk>, CutWire<MemoryWire>>;

/// A peer counts as absent at first after so long.
const SILENCE: u64 = 1_000_000;

/// What all nodes deal in each hand.
const DEAL: &[u8] = b"TdAs|8hTc/2c8c3h/9c/Kh";

/// A match of so many hands by so many nodes.
fn config(rt: &impl Abort, alloc: Global, nodes: u8, hands: u32) -> Result<Config, AllocError> {
    let mut sources = Vec::new(alloc);
    for _ in 0..nodes {
        let mut deals = Vec::new(alloc);
        for _ in 0..hands {
            deals.push(read_deal(DEAL, 2).expect(rt, "a deal"))?;
        }
        sources.push(Source::Listed(deals))?;
    }
    let game = game_def::read(L2).expect(rt, "a game");
    let name = Name::new(b"m1").expect(rt, "a name");
    let word = b"l2.game".to_vec(alloc)?;
    let names = SeatNames::read(b"alice|bob", 2).expect(rt, "names");
    Ok(Config::new(game, name, word, names, hands, sources).expect(rt, "a config"))
}

/// A disk with these bytes, which are synced.
pub(crate) fn disk_of(
    rt: &impl Abort,
    alloc: Global,
    bytes: &[u8],
) -> Result<MemoryDisk, AllocError> {
    let mut disk = MemoryDisk::new(alloc, &[])?;
    assert!(rt; disk.write_at(0, bytes).is_ok() && disk.sync().is_ok());
    Ok(disk)
}

/// The disk of a new store of a node.
pub(crate) fn new_disk(
    rt: &impl Abort,
    alloc: Global,
    node: u8,
    nodes: u8,
) -> Result<MemoryDisk, AllocError> {
    disk_of(rt, alloc, &[b'H', b'D', b'J', b'2', node, nodes, 0, 0, 0])
}

/// What a process knows of its own node.
fn own(node: u8, nodes: u8) -> Own {
    Own {
        number: node,
        nodes,
        digest: MatchDigest { bytes: [9; 32] },
        life: Life {
            bytes: [node.saturating_add(1); 16],
        },
        key: None,
    }
}

/// For how long seats are waited for, in microseconds.
#[derive(Clone, Copy)]
pub(crate) struct Waiting {
    /// How long one may hold the table.
    pub(crate) patience: Option<u64>,
    /// How long those are waited for that haven't come yet.
    pub(crate) start: u64,
    /// One at which nobody is may be given up.
    pub(crate) gives_up: bool,
    /// Seats have tokens: `token_line` shows each.
    pub(crate) has_tokens: bool,
}

/// The line by which the bot of any seat shows its token.
pub(crate) const TOKEN_LINE: &[u8] =
    b"#TOKEN aaaaaaaaaaaaaaaaaaaaaaaaaaaaaaaaaaaaaaaaaaaaaaaaaaaaaaaaaaaaaaaa\r\n";

/// SHA-256 of its token.
const TOKEN: TokenDigest = TokenDigest {
    bytes: [
        0xff, 0xe0, 0x54, 0xfe, 0x7a, 0xe0, 0xcb, 0x6d, 0xc6, 0x5c, 0x3a, 0xf9, 0xb6, 0x1d, 0x52,
        0x09, 0xf4, 0x39, 0x85, 0x1d, 0xb4, 0x3d, 0x0b, 0xa5, 0x99, 0x73, 0x37, 0xdf, 0x15, 0x46,
        0x68, 0xeb,
    ],
};

/// The tokens of seats, where they have some.
fn tokens(alloc: Global, has_tokens: bool) -> Result<Option<Vec<TokenDigest>>, AllocError> {
    if has_tokens {
        Ok(Some(Vec::from_slice(alloc, &[TOKEN, TOKEN])?))
    } else {
        Ok(None)
    }
}

/// The process of a node, in a match of so many nodes and hands, over this disk.
pub(crate) fn server(
    rt: &impl Abort,
    alloc: Global,
    node: u8,
    nodes: u8,
    hands: u32,
    disk: MemoryDisk,
    call: u64,
    calls: u64,
    now: u64,
    waiting: Waiting,
) -> Result<Option<Server>, AllocError> {
    let config = config(rt, alloc, nodes, hands)?;
    let calls = CallsLeft::new(alloc, calls)?;
    assert!(rt; (node as usize) < config.nodes());
    let station = match Station::open(alloc, config, node, CutDisk::new(disk, calls.share()?)) {
        Ok(station) => station,
        Err(_) => return Ok(None),
    };
    let mut wire = MemoryWire::new(alloc, call)?;
    wire.set_now(now);
    let peers = Peers::new(alloc, own(node, nodes), &[], SILENCE)?;
    let seats = Seats::new(alloc, 2, tokens(alloc, waiting.has_tokens)?)?;
    let askers = Askers::new(alloc)?;
    let terms = Terms {
        patience: waiting.patience,
        start: waiting.start,
        gives_up: waiting.gives_up,
        settings: None,
    };
    let mut server = NodeServer::new(
        alloc,
        LocalNode::new(alloc, station),
        CutWire::new(wire, calls),
        peers,
        seats,
        askers,
        terms,
    );
    match server.start() {
        Outcome::GoesOn => Ok(Some(server)),
        _ => Ok(None),
    }
}
