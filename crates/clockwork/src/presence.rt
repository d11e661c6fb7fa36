ghost use Rattle.std.specs.Prelude.{◌≡◌, ◌≤◌, length};
ghost use Rattle.clockwork.specs.declared.limits.TheConstants.{SHORTEST, LONGEST, MOST_SILENT, MOST_PEERS};
ghost use Rattle.clockwork.specs.Presence.{pace_of, most_of, silence_of, lag_of, soon_of, told, present, is_quorate, is_above, is_behind, can_help, one_can_help, behind_wait};
ghost use Rattle.clockwork.specs.Dues.{slow_in};
ghost use Rattle.clockwork.specs.Laws.{quorate, behind};

use crate::known::{Known, Link, Peer, PeerReport};
use crate::limits::{
    ALONE, BEHIND, DOUBLED, LAG, LONGEST, MOST_SILENT, SHORTEST, SILENT, SLACK, STEP,
};
use crate::silence::is_heard;

/// The longest of the last minute: of the node's own calls, and of what was measured of each peer.
#[tactic(auto, unfolding(crate::specs::Presence::slowest))]
pub(crate) fn slowest(known: &Known<'_>) -> u64
    ensures { result ≡ slow_in known.now }
{
    known
        .peers
        .iter()
        .fold(known.longest_call, |most, peer| most.max(peer.longest))
}

/// How long a node waits for answers and for the lead of another at first: eight times as long as the slowest took, and at
/// least one second, at most 256.
#[tactic(auto, unfolding(crate::specs::Presence::pace_of))]
pub(crate) fn pace_of(slow: u64) -> u64
    ensures value { result ≡ pace_of slow }
    ensures least { SHORTEST ≤ result }
    ensures most { result ≤ LONGEST }
{
    LONGEST.min(SHORTEST.max(SLACK * slow.min(LONGEST)))
}

/// Up to how long waits are doubled: eight times as long as a node waits for answers at first, and at most 256 seconds.
#[tactic(auto, unfolding(crate::specs::Presence::most_of))]
pub(crate) fn most_of(slow: u64) -> u64
    ensures value { result ≡ most_of slow }
    ensures most { result ≤ LONGEST }
{
    LONGEST.min(DOUBLED * pace_of(slow))
}

/// How long a present peer is silent at most: twice as long as the slowest took, and at least one second, at most 64.
#[tactic(auto, unfolding(crate::specs::Presence::silence_of))]
pub(crate) fn silence_of(slow: u64) -> u64
    ensures value { result ≡ silence_of slow }
    ensures least { SHORTEST ≤ result }
    ensures most { result ≤ MOST_SILENT }
{
    MOST_SILENT.min(SHORTEST.max(SILENT * slow.min(MOST_SILENT)))
}

/// How long the front of a peer that no repeat reaches has been below this node's when the peer lags: twice as long as the
/// slowest took, and at least 200 milliseconds, at most 64 seconds.
#[tactic(auto, unfolding(crate::specs::Presence::lag_of))]
pub(crate) fn lag_of(slow: u64) -> u64
    ensures value { result ≡ lag_of slow }
    ensures most { result ≤ MOST_SILENT }
{
    MOST_SILENT.min(LAG.max(2 * slow.min(MOST_SILENT)))
}

/// How long a node leaves a matter to another that knows of it and ticks at once: as long as the slowest took, and at
/// least a step, at most 64 seconds.
#[tactic(auto, unfolding(crate::specs::Presence::soon_of))]
pub(crate) fn soon_of(slow: u64) -> u64
    ensures value { result ≡ soon_of slow }
    ensures most { result ≤ MOST_SILENT }
{
    MOST_SILENT.min(STEP.max(slow))
}

/// How long a node waits for answers and for the lead of another at first: eight times the longest of the last minute, of
/// its own calls and of what was measured of its peers; at least one second and at most 256.
pub fn pace(known: &Known<'_>) -> u64
    ensures value { result ≡ pace_of (slow_in known.now) }
    ensures least { SHORTEST ≤ result }
    ensures most { result ≤ LONGEST }
{
    pace_of(slowest(known))
}

/// How long a peer may be silent and still counts as present: twice the longest of the last minute, of the node's own calls
/// and of what was measured of its peers; at least one second and at most 64.
pub fn most_silence(known: &Known<'_>) -> u64
    ensures value { result ≡ silence_of (slow_in known.now) }
    ensures least { SHORTEST ≤ result }
    ensures most { result ≤ MOST_SILENT }
{
    silence_of(slowest(known))
}

/// What a peer told, where it is present: its connection is open, it wasn't silent for too long, and it told its front
/// over it.
#[tactic(auto, unfolding(crate::specs::Presence::told))]
pub(crate) fn told(time: u64, slow: u64, link: Link) -> Option<PeerReport>
    ensures { result ≡ told time slow link }
{
    match link {
        Link::Closed { .. } => None,
        Link::Open(connection) => {
            if is_heard(connection.heard, time, silence_of(slow)) {
                connection.beat
            } else {
                None
            }
        }
    }
}

/// How many peers are present.
#[tactic(auto, unfolding(crate::specs::Presence::present))]
fn present(time: u64, slow: u64, peers: &[Peer]) -> usize
    ensures value { result ≡ present time slow peers.now }
    ensures most { result ≤ length peers.now }
{
    peers
        .iter()
        .filter(|peer| told(time, slow, peer.link).is_some())
        .count()
}

/// Whether the node and its present peers are more than half of all nodes.
pub fn is_quorate(known: &Known<'_>) -> bool
    requires { length known.now.peers.now ≤ MOST_PEERS }
    ensures { result ≡ quorate known.now }
{
    is_quorate_by(known.time, slowest(known), known.peers)
}

#[tactic(auto, unfolding(crate::specs::Presence::is_quorate))]
pub(crate) fn is_quorate_by(time: u64, slow: u64, peers: &[Peer]) -> bool
    requires { length peers.now ≤ MOST_PEERS }
    ensures { result ≡ is_quorate time slow peers.now }
{
    1 + peers.len() < 2 * (1 + present(time, slow, peers))
}

/// Whether a present peer's front is above this one.
#[tactic(auto, unfolding(crate::specs::Presence::is_above))]
fn is_above(front: u32, told: Option<PeerReport>) -> bool
    ensures { result ≡ is_above front told }
{
    match told {
        Some(beat) => front < beat.front,
        None => false,
    }
}

/// Whether a node is behind: some present peer has told a greater front.
pub fn is_behind(known: &Known<'_>) -> bool
    ensures { result ≡ behind known.now }
{
    is_behind_by(known.time, slowest(known), known.front, known.peers)
}

#[tactic(auto, unfolding(crate::specs::Presence::is_behind))]
pub(crate) fn is_behind_by(time: u64, slow: u64, front: u32, peers: &[Peer]) -> bool
    ensures { result ≡ is_behind time slow front peers.now }
{
    peers
        .iter()
        .any(|peer| is_above(front, told(time, slow, peer.link)))
}

/// Whether a present peer is ahead of this front and its match isn't over: a tick at a node whose match is over does
/// nothing.
#[tactic(auto, unfolding(crate::specs::Presence::can_help))]
fn can_help(front: u32, told: Option<PeerReport>) -> bool
    ensures { result ≡ can_help front told }
{
    match told {
        Some(beat) => front < beat.front && !beat.over,
        None => false,
    }
}

#[tactic(auto, unfolding(crate::specs::Presence::one_can_help))]
fn one_can_help(time: u64, slow: u64, front: u32, peers: &[Peer]) -> bool
    ensures { result ≡ one_can_help time slow front peers.now }
{
    peers
        .iter()
        .any(|peer| can_help(front, told(time, slow, peer.link)))
}

/// How long a node that is behind waits at first: no less than until a peer lags.
pub(crate) fn behind_wait(time: u64, slow: u64, front: u32, peers: &[Peer]) -> u64
    ensures value { result ≡ behind_wait time slow front peers.now }
    ensures most { result ≤ LONGEST }
{
    let wait = if one_can_help(time, slow, front, peers) {
        BEHIND
    } else {
        ALONE
    };
    lag_of(slow).max(wait)
}
