//! The faults of a peer, for notes.

ghost use Rattle.std.specs.Prelude.{◌≡◌, ◌<◌, replicate, None};
ghost use Rattle.node_links.specs.Noting.{fault_place, is_told, told_last, and_told};

use crate::limits::REPEATED;
use crate::peer_fault::{Mismatch, PeerFault, Whose};
use peer_codes::RecordFault;

/// How many faults there are.
const FAULTS: usize = 14;

/// When each fault of a peer was told last, in whole microseconds: the same is told once in ten seconds.
#[derive(Clone, Copy, Debug, PartialEq, Eq)]
pub struct Notes {
    told: [Option<u64>; FAULTS],
}

/// Each fault's place among them.
fn place(fault: PeerFault) -> usize
    ensures place { result ≡ fault_place fault }
    ensures within { result < 14 }
{
    match fault {
        PeerFault::Record(RecordFault::BadLength) => 0,
        PeerFault::Record(RecordFault::BadKind) => 1,
        PeerFault::Record(RecordFault::BadHello) => 2,
        PeerFault::OtherMatch(Mismatch::Digest(_)) => 3,
        PeerFault::OtherMatch(Mismatch::Nodes(_)) => 4,
        PeerFault::OtherMatch(Mismatch::Number(_)) => 5,
        PeerFault::WrongProof => 6,
        PeerFault::WrongTag => 7,
        PeerFault::UnexpectedRecord => 8,
        PeerFault::StoreReplaced(Whose::Own) => 9,
        PeerFault::StoreReplaced(Whose::Other) => 10,
        PeerFault::AlreadyHere => 11,
        PeerFault::StoreOlder(Whose::Own) => 12,
        PeerFault::StoreOlder(Whose::Other) => 13,
    }
}

/// Whether a fault is told that was told last at that moment.
fn is_told(last: Option<u64>, now: u64) -> bool
    ensures { result ≡ is_told last now }
{
    match last {
        Some(at) => REPEATED <= now.saturating_sub(at),
        None => true,
    }
}

impl Notes {
    /// None was told.
    pub fn new() -> Notes
        ensures { result ≡ record { told = replicate 14 None } }
    {
        Notes {
            told: [None; FAULTS],
        }
    }

    /// Whether this fault is told at this moment; it counts as told then.
    pub fn tell(&mut self, fault: PeerFault, now: u64) -> bool
        ensures told { result ≡ is_told (told_last self.old fault) now }
        ensures rest { self.new ≡ and_told self.old fault now }
    {
        let place = place(fault);
        if !is_told(self.told[place], now) {
            return false;
        }
        self.told[place] = Some(now);
        true
    }
}
