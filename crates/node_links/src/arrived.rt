//! What a connection tells where its caller's buffer takes the frame.

ghost use Rattle.std.specs.Prelude.{◌≡◌};
ghost use Rattle.node_links.specs.Arriving.{heard_as, told};

use crate::further::Further;
use crate::heard::Heard;
use crate::peer_fault::PeerFault;
use peer_codes::{Beat, Frame, Hello};

/// What came over a connection, where the caller's buffer has the frame: what is `Heard`, without a frame's bytes.
#[derive(Clone, Copy)]
pub enum Arrived {
    /// The other's Hello. It is judged next, and the side that was called answers with its own.
    Hello(Hello),
    /// The other's proof is right, on a connection with codes. What its Hello changes is judged next.
    Proved(Hello),
    /// A frame of the other node, which the buffer has.
    Frame,
    /// How the other is.
    Beat(Beat),
    /// What a record of a further kind tells.
    Further(Further),
}

/// What was heard, of which a frame goes into the buffer.
fn arrived_of(heard: Heard, frame: &mut Frame) -> Arrived
    ensures { heard_as result frame.new ≡ heard }
{
    match heard {
        Heard::Hello(hello) => Arrived::Hello(hello),
        Heard::Proved(hello) => Arrived::Proved(hello),
        Heard::Frame(heard) => {
            *frame = heard;
            Arrived::Frame
        }
        Heard::Beat(beat) => Arrived::Beat(beat),
        Heard::Further(further) => Arrived::Further(further),
    }
}

/// What a call told, of which a frame goes into the buffer.
pub(crate) fn lend(
    heard: Option<Result<Heard, PeerFault>>,
    frame: &mut Frame,
) -> Option<Result<Arrived, PeerFault>>
    ensures { told result frame.new ≡ heard }
{
    match heard {
        None => None,
        Some(Err(fault)) => Some(Err(fault)),
        Some(Ok(heard)) => Some(Ok(arrived_of(heard, frame))),
    }
}
