ghost use Rattle.std.specs.Prelude.{◌≡◌, ◌==◌, ◌≤◌, find};
ghost use Rattle.clockwork.specs.declared.limits.TheConstants.{LATEST};
ghost use Rattle.clockwork.specs.Standings.{idle_since, gone_since, standing_over, standing_behind, standing, standing_to, is_campaign, is_follower};

use crate::known::{Known, Link, Peer, PeerReport};
use crate::presence::{silence_of, told};
use crate::silence::is_heard;

/// How a node stands to the node whose ballot it has promised.
#[derive(Clone, Copy)]
pub(crate) enum Standing {
    /// It campaigns itself.
    Campaigns,
    /// It has promised no ballot, or nobody has campaigned since the process began.
    Fresh,
    /// It campaigned last, and does no longer.
    Led,
    /// Another did, and is known to be gone since this moment.
    Lost { leader: u8, since: u64 },
    /// Another did, is present, and has told since this moment that it does no longer.
    Idle { leader: u8, since: u64 },
    /// Another campaigns.
    Follows { leader: u8 },
}

/// Since when a peer has told that it doesn't campaign, where that is what it last told.
#[tactic(auto, unfolding(crate::specs::Standings::idle_since))]
fn idle_since(beat: Option<PeerReport>) -> Option<u64>
    ensures { result ≡ idle_since beat }
{
    match beat {
        Some(beat) if !beat.campaigns => Some(beat.told),
        _ => None,
    }
}

/// Since when a peer is known to be gone: its connection ended, or it has been silent for too long.
#[tactic(auto, unfolding(crate::specs::Standings::gone_since))]
fn gone_since(time: u64, slow: u64, link: Link) -> Option<u64>
    requires time { time ≤ LATEST }
    ensures { result ≡ gone_since time slow link }
{
    match link {
        Link::Closed { since } => Some(since),
        Link::Open(connection) => {
            let silence = silence_of(slow);
            if is_heard(connection.heard, time, silence) {
                None
            } else {
                Some(connection.heard + silence)
            }
        }
    }
}

/// How a node stands to a leader over this link.
#[tactic(auto, unfolding(crate::specs::Standings::standing_over))]
fn standing_over(time: u64, slow: u64, leader: u8, link: Link) -> Standing
    requires time { time ≤ LATEST }
    ensures { result ≡ standing_over time slow leader link }
{
    if let Some(since) = gone_since(time, slow, link) {
        return Standing::Lost { leader, since };
    }
    match idle_since(told(time, slow, link)) {
        Some(since) => Standing::Idle { leader, since },
        None => Standing::Follows { leader },
    }
}

/// How it stands to a leader among the peers; one that is none of them is lost since ever.
#[tactic(auto, unfolding(crate::specs::Standings::standing_behind))]
fn standing_behind(time: u64, slow: u64, leader: u8, peers: &[Peer]) -> Standing
    requires time { time ≤ LATEST }
    ensures { result ≡ standing_behind time slow leader (find (λ peer. peer.number == leader) peers.now) }
{
    match peer_of(leader, peers) {
        Some(peer) => standing_over(time, slow, leader, peer.link),
        None => Standing::Lost { leader, since: 0 },
    }
}

/// The peer of this number.
pub(crate) fn peer_of(number: u8, peers: &[Peer]) -> Option<Peer>
    ensures { result ≡ find (λ peer. peer.number == number) peers.now }
{
    peers.iter().copied().find(|peer| peer.number == number)
}

/// Whether it campaigns itself.
pub(crate) fn is_campaign(standing: Standing) -> bool
    ensures { result ≡ is_campaign standing }
{
    matches!(standing, Standing::Campaigns)
}

/// Whether it follows another that campaigns.
pub(crate) fn is_follower(standing: Standing) -> bool
    ensures { result ≡ is_follower standing }
{
    matches!(standing, Standing::Follows { .. })
}

/// How the node stands to the node whose ballot it has promised.
pub(crate) fn standing_of(known: &Known<'_>, slow: u64) -> Standing
    requires time { known.now.time ≤ LATEST }
    ensures { result ≡ standing known.now slow known.now.promised }
{
    match known.promised {
        Some(leader) => standing_to(known, slow, leader),
        None => Standing::Fresh,
    }
}

#[tactic(auto, unfolding(crate::specs::Standings::standing_to))]
fn standing_to(known: &Known<'_>, slow: u64, leader: u8) -> Standing
    requires time { known.now.time ≤ LATEST }
    ensures { result ≡ standing_to known.now slow leader }
{
    let is_own = leader == known.number;
    if is_own && known.campaigns {
        return Standing::Campaigns;
    }
    if !known.was_led {
        return Standing::Fresh;
    }
    if is_own {
        return Standing::Led;
    }
    standing_behind(known.time, slow, leader, known.peers)
}
