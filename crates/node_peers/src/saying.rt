//! What is said by a connection.

ghost use Rattle.std.specs.Prelude.{◌≡◌};
ghost use Rattle.node_peers.specs.Saying.{saying_of};

use node_links::{Arrived, Further, PeerFault};
use peer_codes::{Beat, Hello};

/// What is said by a connection, and by which node, where it is open. The buffer has the frame.
#[derive(Clone, Copy)]
pub(crate) enum Saying {
    /// Nothing yet.
    Waits,
    /// The other's Hello.
    Hello(Hello),
    /// That this Hello is proved.
    Proved(Hello),
    Frame { from: u8 },
    Beat { from: u8, beat: Beat },
    /// What a record of a further kind tells.
    Further { from: u8, further: Further },
    /// Something of nobody.
    Nothing,
    /// It is closed by a fault.
    Fault(PeerFault),
}

/// What arrived over a connection at whose other end this node is.
pub(crate) fn saying_of(arrived: Option<Result<Arrived, PeerFault>>, from: Option<u8>) -> Saying
    ensures { result ≡ saying_of arrived from }
{
    match arrived {
        None => Saying::Waits,
        Some(Err(fault)) => Saying::Fault(fault),
        Some(Ok(Arrived::Hello(hello))) => Saying::Hello(hello),
        Some(Ok(Arrived::Proved(hello))) => Saying::Proved(hello),
        Some(Ok(Arrived::Frame)) => match from {
            Some(from) => Saying::Frame { from },
            None => Saying::Nothing,
        },
        Some(Ok(Arrived::Beat(beat))) => match from {
            Some(from) => Saying::Beat { from, beat },
            None => Saying::Nothing,
        },
        Some(Ok(Arrived::Further(further))) => match from {
            Some(from) => Saying::Further { from, further },
            None => Saying::Nothing,
        },
    }
}
