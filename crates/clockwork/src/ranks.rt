ghost use Rattle.std.specs.Prelude.{◌≡◌, ◌≤◌, length};
ghost use Rattle.clockwork.specs.Dues.{slow_in};
ghost use Rattle.clockwork.specs.Ranks.{turn, is_before, comes_sooner, is_as_far, rank_by_number, rank_behind, rank_as_far};

use crate::known::{Known, Peer, PeerReport};
use crate::presence::{slowest, told};

/// How late a node's turn comes where nodes are counted cyclically from behind a leader on.
#[tactic(auto, unfolding(crate::specs::Ranks::turn))]
fn turn(leader: u8, number: u8) -> u16
    ensures { result ≡ turn leader number }
{
    if leader < number {
        u16::from(number)
    } else {
        u16::from(number) + 256
    }
}

/// How many present peers have a lower number than this.
#[tactic(auto, unfolding(crate::specs::Ranks::rank_by_number))]
pub(crate) fn rank_by_number(time: u64, slow: u64, number: u8, peers: &[Peer]) -> usize
    ensures value { result ≡ rank_by_number time slow number peers.now }
    ensures most { result ≤ length peers.now }
{
    peers
        .iter()
        .filter(|peer| is_before(told(time, slow, peer.link), peer.number, number))
        .count()
}

/// How many present peers have a lower number than this node.
pub fn rank(known: &Known<'_>) -> usize
    ensures value { result ≡ rank_by_number known.now.time (slow_in known.now) known.now.number known.now.peers.now }
    ensures most { result ≤ length known.now.peers.now }
{
    rank_by_number(known.time, slowest(known), known.number, known.peers)
}

/// Whether a peer is present and has a lower number than this.
#[tactic(auto, unfolding(crate::specs::Ranks::is_before))]
fn is_before(told: Option<PeerReport>, peer: u8, number: u8) -> bool
    ensures { result ≡ is_before told peer number }
{
    match told {
        Some(_) => peer < number,
        None => false,
    }
}

/// How many present peers come before this number, counted cyclically from behind a leader on.
#[tactic(auto, unfolding(crate::specs::Ranks::rank_behind))]
pub(crate) fn rank_behind(time: u64, slow: u64, leader: u8, number: u8, peers: &[Peer]) -> usize
    ensures value { result ≡ rank_behind time slow leader number peers.now }
    ensures most { result ≤ length peers.now }
{
    peers
        .iter()
        .filter(|peer| comes_sooner(told(time, slow, peer.link), leader, peer.number, number))
        .count()
}

/// Whether a peer is present and comes before this number, counted cyclically from behind a leader on.
#[tactic(auto, unfolding(crate::specs::Ranks::comes_sooner))]
fn comes_sooner(told: Option<PeerReport>, leader: u8, peer: u8, number: u8) -> bool
    ensures { result ≡ comes_sooner told leader peer number }
{
    match told {
        Some(_) => turn(leader, peer) < turn(leader, number),
        None => false,
    }
}

/// How many present peers with this front or a greater one have a lower number than this.
#[tactic(auto, unfolding(crate::specs::Ranks::rank_as_far))]
pub(crate) fn rank_as_far(time: u64, slow: u64, front: u32, number: u8, peers: &[Peer]) -> usize
    ensures value { result ≡ rank_as_far time slow front number peers.now }
    ensures most { result ≤ length peers.now }
{
    peers
        .iter()
        .filter(|peer| is_as_far(told(time, slow, peer.link), front, peer.number, number))
        .count()
}

/// Whether a peer is present, has told this front or a greater one, and has a lower number than this.
#[tactic(auto, unfolding(crate::specs::Ranks::is_as_far))]
fn is_as_far(told: Option<PeerReport>, front: u32, peer: u8, number: u8) -> bool
    ensures { result ≡ is_as_far told front peer number }
{
    match told {
        Some(beat) => front <= beat.front && peer < number,
        None => false,
    }
}
