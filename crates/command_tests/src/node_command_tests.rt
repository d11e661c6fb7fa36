//! The notes of a node's process and how it ends, and `node_run` where the start is its end, over wires and disks in memory.

use crate::test_streams::{config, holds, is_same, is_written, prints};
use dealer_node::NodeFault;
use match_file::{Counts, Difference, Key, MatchFault};
use match_log::Name;
use node_links::{Digests, Mismatch, Numbers, Own, PeerFault, Whose, WrongNumber};
use node_peers::Peers;
use node_runs::{
    KEPT_BYTES, KeptPeer, LifeKeeper, NodeEnd, PromiseKeeper, kept_peer_text, key_text, node_run,
    read_kept_peer, read_key,
};
use node_seats::Seats;
use node_service::{LocalNode, NodeServer, Terms};
use node_status::Askers;
use node_wires::MemoryWire;
use operator_notes::{KeyFault, NodeNote, life_path, node_kept_path, tell_node_note};
use paxos_wire::Ballot;
use peer_codes::{Key as SharedKey, Life, MatchDigest};
use promise_store::{Disk, OnceDisk, Store, StoreFault};
use stations::Station;
use std::alloc::{AllocError, Global};
use std::net::{IpAddr, SocketAddr};
use std::process::Abort;
use std::test::Fail;

/// The lines of all notes that tell nothing of a seat.
const NOTES: &[u8] = b"match m1, node 2: started, first unchosen slot 7
match m1, node 2: can be started (its ports were not tried)
seed 0 of node 2: is this the machine of node 2?
key port is for serve only, ignored
stores/match.kept: not found: copy it from the machine of node 0
stores/node2.journal: an older copy: put the newest one back, or leave this node out
no key: connections between nodes are neither authenticated nor encrypted
match?[2J.key: open to others than its owner
status at 127.0.0.1:7090
peer 1: connected
peer 1: disconnected
peer 2: 127 StoreReplaced
peer 2: 130 StoreOlder
peer 0: 123 OtherMatch digest: here 1a2b3c4d, there 0000000a (from 10.0.0.7)
inbound connection refused: 123 OtherMatch number 2 called, not 1
inbound connection refused: 124 WrongProof (from peer 2's address)
peer 2: patience 100, here 12
peer 2: start 1.050, here none
peer 2: away wait, here play
peer 2: tokens differ
inbound connection refused: no Hello, or no place
peer 2: 1900 commands behind, slowest answer in seconds: 0.612
quorum: more than half of the nodes are connected
quorum lost: bots are disconnected until it returns
campaigns in ballot (5, 1)
12 notes left out
the match is over
";

/// Notes of all kinds, in the order of their lines.
fn notes<'a>(name: Name) -> [NodeNote<'a>; 27] {
    [
        NodeNote::Begins {
            name,
            node: 2,
            front: 7,
        },
        NodeNote::CanStart { name, node: 2 },
        NodeNote::OtherMachine(2),
        NodeNote::PassedOver("port"),
        NodeNote::NotCopied("stores/match.kept"),
        NodeNote::OlderCopy("stores/node2.journal"),
        NodeNote::NoKey,
        NodeNote::BadKey("match\u{1b}[2J.key", KeyFault::NotSecret),
        NodeNote::Status(SocketAddr::from(([127, 0, 0, 1], 7090))),
        NodeNote::Joined(1),
        NodeNote::Gone(1),
        NodeNote::Refused {
            peer: 2,
            fault: PeerFault::StoreReplaced(Whose::Other),
            source: None,
        },
        NodeNote::Refused {
            peer: 2,
            fault: PeerFault::StoreOlder(Whose::Other),
            source: None,
        },
        NodeNote::Refused {
            peer: 0,
            fault: PeerFault::OtherMatch(Mismatch::Digest(Digests {
                here: 0x1a2b_3c4d,
                there: 10,
            })),
            source: Some(IpAddr::from([10, 0, 0, 7])),
        },
        NodeNote::Caller {
            peer: None,
            fault: PeerFault::OtherMatch(Mismatch::Number(WrongNumber::Called(Numbers {
                said: 2,
                expected: 1,
            }))),
        },
        NodeNote::Caller {
            peer: Some(2),
            fault: PeerFault::WrongProof,
        },
        NodeNote::OtherTime {
            peer: 2,
            key: "patience",
            there: 100_000,
            here: 12_000,
        },
        NodeNote::OtherTime {
            peer: 2,
            key: "start",
            there: 1050,
            here: 0,
        },
        NodeNote::OtherAway {
            peer: 2,
            waits_there: true,
            waits_here: false,
        },
        NodeNote::OtherTokens(2),
        NodeNote::NoPlace,
        NodeNote::Behind {
            peer: 2,
            behind: 1900,
            slowest: 612_999,
        },
        NodeNote::Quorum,
        NodeNote::QuorumLost,
        NodeNote::Campaigns(Ballot { round: 5, node: 1 }),
        NodeNote::LeftOut(12),
        NodeNote::Over,
    ]
}

#[test]
fn each_note_is_a_line(rt: HostRuntime) -> Result<(), Fail> {
    let name = Name::new(b"m1").expect(&rt, "a name");
    let mut told = Vec::new(rt.alloc());
    for note in &notes(name) {
        tell_node_note(rt.alloc(), &mut told, note);
    }
    is_written(&rt, &told, NOTES);
    Ok(())
}

/// Sees that a process ends so.
fn ends(
    rt: &impl Abort,
    alloc: Global,
    end: NodeEnd,
    status: u8,
    text: &str,
) -> Result<(), AllocError> {
    is_same(rt, end.status(), status);
    prints(rt, alloc, &end, text)
}

#[test]
fn the_status_says_what_is_at_fault(rt: HostRuntime) -> Result<(), Fail> {
    let alloc = rt.alloc();
    let store = NodeFault::Store(StoreFault::Disk);
    ends(&rt, alloc, NodeEnd::from(store), 3, "91 Store 63 Disk")?;
    ends(
        &rt,
        alloc,
        NodeEnd::from(NodeFault::Conflict),
        3,
        "95 Conflict",
    )?;
    ends(&rt, alloc, NodeEnd::from(AllocError), 1, "92 OutOfMemory")?;
    ends(&rt, alloc, NodeEnd::LinkFailed, 1, "105 LinkFailed")?;
    ends(&rt, alloc, NodeEnd::LogFailed, 1, "106 LogFailed")?;
    ends(&rt, alloc, NodeEnd::StoreInUse, 2, "108 StoreInUse")?;
    ends(&rt, alloc, NodeEnd::Unreadable, 2, "104 Unreadable")?;
    let other = NodeEnd::OtherMatch(Difference::Hands(Counts {
        kept: 10000,
        expected: 3000,
    }));
    ends(&rt, alloc, other, 2, "109 OtherMatch hands 10000, not 3000")?;
    let entry = NodeEnd::from(MatchFault::BadEntry(Key::Peers));
    ends(&rt, alloc, entry, 2, "101 BadEntry peers")?;
    is_same(&rt, NodeEnd::StoreReplaced.status(), 2);
    prints(&rt, alloc, &NodeEnd::StoreReplaced, "127 StoreReplaced")?;
    is_same(&rt, NodeEnd::StoreOlder.status(), 2);
    prints(&rt, alloc, &NodeEnd::StoreOlder, "130 StoreOlder")?;
    Ok(())
}

#[test]
fn files_beside_a_store_have_names(rt: HostRuntime) -> Result<(), Fail> {
    let kept = node_kept_path(rt.alloc(), "stores", 2)?;
    is_written(&rt, kept.as_bytes(), b"stores/node2.kept");
    let life = life_path(rt.alloc(), "stores", 2, 10)?;
    is_written(&rt, life.as_bytes(), b"stores/node2.peer10.kept");
    Ok(())
}

#[test]
fn a_key_is_64_digits(rt: HostRuntime) -> Result<(), Fail> {
    let key = SharedKey { bytes: [0xa0; 32] };
    let text = key_text(rt.alloc(), &key)?;
    let digits = b"a0a0a0a0a0a0a0a0a0a0a0a0a0a0a0a0a0a0a0a0a0a0a0a0a0a0a0a0a0a0a0a0\n";
    is_written(&rt, &text, digits);
    let read = read_key(&text).expect(&rt, "a key");
    is_written(&rt, &read.bytes, &key.bytes);
    holds(&rt, 2u64, read_key(b"a0").is_none());
    Ok(())
}

#[test]
fn a_text_says_what_a_store_promised(rt: HostRuntime) -> Result<(), Fail> {
    let life = Life { bytes: [0xa0; 16] };
    let promised = Some(Ballot { round: 42, node: 1 });
    let kept = KeptPeer { life, promised };
    let text = kept_peer_text(rt.alloc(), &kept)?;
    let line = b"life a0a0a0a0a0a0a0a0a0a0a0a0a0a0a0a0\npromised 42.1            \n";
    is_written(&rt, &text, line);
    is_same(&rt, text.len(), KEPT_BYTES);
    is_same(&rt, read_kept_peer(&text) == Some(kept), true);
    let promised = None;
    let kept = KeptPeer { life, promised };
    let text = kept_peer_text(rt.alloc(), &kept)?;
    is_written(&rt, &text, b"life a0a0a0a0a0a0a0a0a0a0a0a0a0a0a0a0\n");
    is_same(&rt, read_kept_peer(&text) == Some(kept), true);
    is_same(&rt, read_kept_peer(b"promised 42.1 \n").is_none(), true);
    Ok(())
}

/// Keeps no promise.
#[derive(Drop)]
struct NoPromises;

impl PromiseKeeper for NoPromises {
    fn keep(&mut self, _peer: u8, _ballot: Ballot) -> bool {
        false
    }
}

/// Keeps no life: none is told in these tests.
#[derive(Drop)]
pub(crate) struct NoLives;

impl LifeKeeper for NoLives {
    ghost kept = { λ _ _ _ _. Unit {0} };

    fn keep(&mut self, _peer: u8, _life: &Life) -> Result<(), NodeFault> {
        Ok(())
    }
}

/// The process of node 0 over this disk, of whose wires the call of this number fails; none where the disk has no store.
fn server<D: Disk + Drop>(
    alloc: Global,
    disk: D,
    call: u64,
) -> Result<Option<NodeServer<D, MemoryWire>>, Fail> {
    let Ok(station) = Station::open(alloc, config(alloc)?, 0, disk) else {
        return Ok(None);
    };
    let own = Own {
        number: 0,
        nodes: 3,
        digest: MatchDigest { bytes: [1; 32] },
        life: Life { bytes: [2; 16] },
        key: None,
    };
    let peers = Peers::new(alloc, own, &[], 1_000_000)?;
    let seats = Seats::new(alloc, 2, None)?;
    let wire = MemoryWire::new(alloc, call)?;
    let member = LocalNode::new(alloc, station);
    let askers = Askers::new(alloc)?;
    let terms = Terms {
        patience: None,
        start: 0,
        gives_up: false,
        settings: None,
    };
    Ok(Some(NodeServer::new(alloc, member, wire, peers, seats, askers, terms)))
}

/// How a process ended, if it had a store to begin on, and whether a call of its disk failed.
#[derive(Drop)]
struct ProcessEnd {
    end: Option<NodeEnd>,
    has_failed: bool,
}

/// It had no store to begin on.
const UNBEGUN: ProcessEnd = ProcessEnd {
    end: None,
    has_failed: true,
};

/// How the process of node 0 ends whose log can't be written, and whose disk fails at the call of this number, counted from
/// 1. What it told stands in `notes`.
fn ran(alloc: Global, call: u64, notes: &mut Vec<u8>) -> Result<ProcessEnd, Fail> {
    let Ok(store) = Store::create(alloc, OnceDisk::new(alloc, call), 0, 3) else {
        return Ok(UNBEGUN);
    };
    let Some(mut server) = server(alloc, store.close(), 1)? else {
        return Ok(UNBEGUN);
    };
    let mut lives = NoLives;
    let mut promises = NoPromises;
    let end = node_run(alloc, &mut server, &mut lives, &mut promises, 7000, notes).err();
    let has_failed = match server.station().node().disk() {
        Some(disk) => disk.failures() > 0,
        None => true,
    };
    Ok(ProcessEnd { end, has_failed })
}

/// Sees what a process told and how it ended, and says whether by its store.
fn ended_by_store(
    rt: &impl Abort,
    alloc: Global,
    end: NodeEnd,
    notes: &[u8],
) -> Result<bool, AllocError> {
    is_written(
        rt,
        notes,
        b"match m1, node 0: started, first unchosen slot 0\n",
    );
    let is_by_store = end.status() == 3;
    let text = if is_by_store {
        "91 Store 63 Disk"
    } else {
        "106 LogFailed"
    };
    prints(rt, alloc, &end, text)?;
    Ok(is_by_store)
}

/// More calls than a disk is given until its process ends.
const MOST_CALLS: u64 = 1_000;

/// Where the disk fails at the start the store is at fault, and else the log: each is told by the end alone. Each call of
/// the disk fails once, until none does.
#[test]
fn a_start_that_fails_ends_the_process(rt: HostRuntime) -> Result<(), Fail> {
    let mut stores = 0u64;
    for call in 1..MOST_CALLS {
        let mut notes = Vec::new(rt.alloc());
        let ProcessEnd { end, has_failed } = ran(rt.alloc(), call, &mut notes)?;
        if let Some(end) = end {
            let is_by_store = ended_by_store(&rt, rt.alloc(), end, &notes)?;
            stores = stores.saturating_add(is_by_store as u64);
        }
        if !has_failed {
            holds(&rt, stores, stores > 0);
            return Ok(());
        }
    }
    panic!(&rt; "a call fails whatever its number");
}
