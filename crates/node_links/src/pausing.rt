//! How long a peer isn't dialled that refuses this node, or is refused.

ghost use Rattle.std.specs.Prelude.{◌≡◌, ◌≤◌};
ghost use Rattle.node_links.specs.declared.limits.TheConstants as limits;
ghost use Rattle.node_links.specs.Pausing.{is_standing, longer, pause_after, closed_pause};

use crate::limits::{CLOSED, LONGEST, MOST_CLOSED, REFUSED};
use crate::peer_fault::PeerFault;

/// Whether a fault stays until somebody changes a file or a process ends.
fn is_standing(fault: PeerFault) -> bool
    ensures { result ≡ is_standing fault }
{
    match fault {
        PeerFault::Record(_) => false,
        PeerFault::OtherMatch(_) => true,
        PeerFault::WrongProof => true,
        PeerFault::WrongTag => false,
        PeerFault::UnexpectedRecord => false,
        PeerFault::StoreReplaced(_) => true,
        PeerFault::AlreadyHere => true,
        PeerFault::StoreOlder(_) => true,
    }
}

/// The next pause behind one that lasted so long; 0 stands for none. All are whole microseconds.
pub fn longer(last: u64) -> u64
    ensures pause { result ≡ longer last }
    ensures least { limits.REFUSED ≤ result }
    ensures most { result ≤ limits.LONGEST }
{
    if last < REFUSED {
        return REFUSED;
    }
    let twice = last.saturating_mul(2);
    if twice >= LONGEST { LONGEST } else { twice }
}

/// How long a peer isn't dialled behind this fault, where the last pause lasted so long since something came of it.
pub fn pause_after(fault: PeerFault, last: u64) -> u64
    ensures { result ≡ pause_after fault last }
{
    if is_standing(fault) {
        longer(last)
    } else {
        REFUSED
    }
}

/// How long a peer isn't dialled behind a dial that was answered and closed without a byte, the last of so many in a row:
/// 0.1 s behind the first, 0.2 s behind the second, and so on to 1 s.
pub fn closed_pause(closed: u8) -> u64
    ensures pause { result ≡ closed_pause closed }
    ensures most { result ≤ limits.REFUSED }
{
    CLOSED * closed.min(MOST_CLOSED) as u64
}
