ghost use Rattle.std.specs.Prelude.{◌≡◌, ◌≤◌, length, IfSome};
ghost use Rattle.clockwork.specs.declared.limits.TheConstants.{LONGEST, MOST_PEERS};
ghost use Rattle.clockwork.specs.Presence.{told};
ghost use Rattle.clockwork.specs.Helping.{lag_within, waits_since, lagging, lagging_left, least_left, help_left};

use crate::known::{Known, Peer, PeerReport};
use crate::limits::{LOOK, MOST_HELP, STEP};
use crate::presence::{lag_of, pace_of, told};
use crate::ranks::rank_as_far;
use crate::waits::{again, left};

/// A wait since a moment.
#[derive(Clone, Copy)]
pub(crate) struct Wait {
    pub(crate) since: u64,
    pub(crate) length: u64,
}

/// How long a peer's front has been below this node's without having moved when the peer lags: `lag_of` where no repeat is at or above
/// its front, `pace_of` where one is at its front. One above its front makes it ask, so that it doesn't lag.
#[tactic(auto, unfolding(crate::specs::Helping::lag_within))]
fn lag_within(slow: u64, accepted: Option<u32>, front: u32) -> Option<u64>
    ensures value { result ≡ lag_within slow accepted front }
    ensures most { IfSome result (λ wait. wait ≤ LONGEST) }
{
    match accepted {
        Some(slot) => {
            if slot < front {
                Some(lag_of(slow))
            } else if slot == front {
                Some(pace_of(slow))
            } else {
                None
            }
        }
        None => Some(lag_of(slow)),
    }
}

/// A wait of this length since a moment, where there is one.
fn waits_since(since: u64, length: Option<u64>) -> Option<Wait>
    requires { IfSome length (λ length. length ≤ LONGEST) }
    ensures value { result ≡ waits_since since length }
    ensures most { IfSome result (λ wait. wait.length ≤ LONGEST) }
{
    match length {
        Some(length) => Some(Wait { since, length }),
        None => None,
    }
}

/// The wait after which a peer lags, where one runs: it is present, its front is below this node's, and no repeat makes it
/// ask.
#[tactic(auto, unfolding(crate::specs::Helping::lagging))]
fn lagging(slow: u64, front: u32, accepted: Option<u32>, told: Option<PeerReport>) -> Option<Wait>
    ensures value { result ≡ lagging slow front accepted told }
    ensures most { IfSome result (λ wait. wait.length ≤ LONGEST) }
{
    match told {
        Some(beat) => {
            if beat.front < front {
                waits_since(beat.below, lag_within(slow, accepted, beat.front))
            } else {
                None
            }
        }
        None => None,
    }
}

/// What is left of a wait that is so much longer; where none runs, the time until the next look.
#[tactic(auto, unfolding(crate::specs::Helping::lagging_left))]
fn lagging_left(time: u64, more: u64, wait: Option<Wait>) -> u64
    requires more { more ≤ LONGEST }
    requires length { IfSome wait (λ wait. wait.length ≤ LONGEST) }
    ensures { result ≡ lagging_left time more wait }
{
    match wait {
        Some(wait) => left(time, wait.since, wait.length + more),
        None => LOOK,
    }
}

/// What is left until this node is to tick for some peer that lags, by the peers alone.
#[tactic(auto, unfolding(crate::specs::Helping::least_left))]
fn least_left(time: u64, slow: u64, front: u32, more: u64, peers: &[Peer]) -> u64
    requires { more ≤ LONGEST }
    ensures { result ≡ least_left time slow front more peers.now }
{
    peers.iter().fold(LOOK, |least, peer| {
        least.min(peer_left(time, slow, front, more, *peer))
    })
}

fn peer_left(time: u64, slow: u64, front: u32, more: u64, peer: Peer) -> u64
    requires { more ≤ LONGEST }
    ensures { result ≡ lagging_left time more (lagging slow front peer.accepted (told time slow peer.link)) }
{
    let wait = lagging(slow, front, peer.accepted, told(time, slow, peer.link));
    lagging_left(time, more, wait)
}

/// What is left until this node is to tick for a peer that lags.
#[tactic(auto, unfolding(crate::specs::Helping::help_left))]
pub(crate) fn help_left(known: &Known<'_>, slow: u64) -> u64
    requires { length known.now.peers.now ≤ MOST_PEERS }
    ensures { result ≡ help_left known.now slow }
{
    let rank = rank_as_far(known.time, slow, known.front, known.number, known.peers);
    least_left(
        known.time,
        slow,
        known.front,
        STEP * rank as u64,
        known.peers,
    )
    .max(again(known.time, known.ticks, lag_of(slow), MOST_HELP))
}
