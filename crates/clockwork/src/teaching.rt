ghost use Rattle.std.specs.Prelude.{◌≡◌};
ghost use Rattle.clockwork.specs.Teaching.{told_by_leader, teaching_left, taught_left};

use crate::known::{Known, PeerReport};
use crate::presence::{pace_of, told};
use crate::standing::peer_of;
use crate::waits::left;

/// What the node whose ballot is promised told, where it is a peer and present.
#[tactic(auto, unfolding(crate::specs::Teaching::told_by_leader))]
fn told_by_leader(known: &Known<'_>, slow: u64) -> Option<PeerReport>
    ensures { result ≡ told_by_leader known.now slow known.now.promised }
{
    match known.promised {
        Some(leader) => match peer_of(leader, known.peers) {
            Some(peer) => told(known.time, slow, peer.link),
            None => None,
        },
        None => None,
    }
}

/// What is left until a front above this one, of a match that goes on, has stood for the wait for answers.
#[tactic(auto, unfolding(crate::specs::Teaching::teaching_left))]
fn teaching_left(time: u64, slow: u64, front: u32, told: Option<PeerReport>) -> u64
    ensures { result ≡ teaching_left time slow front told }
{
    match told {
        Some(report) => {
            if front < report.front && !report.over {
                left(time, report.risen, pace_of(slow))
            } else {
                0
            }
        }
        None => 0,
    }
}

/// What is left until the node whose ballot is promised no longer tells this one what it lacks: its front is above this node's
/// and rises, so that its frames have this node ask. Once it has stood for the wait for answers nothing is left.
#[tactic(auto, unfolding(crate::specs::Teaching::taught_left))]
pub(crate) fn taught_left(known: &Known<'_>, slow: u64) -> u64
    ensures { result ≡ taught_left known.now slow }
{
    teaching_left(known.time, slow, known.front, told_by_leader(known, slow))
}
