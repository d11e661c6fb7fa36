use crate::peer_fault::PeerFault;
use peer_codes::{Hello, Version};

/// How far a connection without codes is, as one side has it.
#[derive(Clone, Copy, Debug)]
pub enum Phase {
    /// Waits for the other's Hello, where this side dialled one of the version in which it did.
    Greeting(Option<Version>),
    /// The other's Hello came, and isn't judged yet.
    Asked(Hello),
    /// The other's Hello was taken.
    Open(Hello),
    /// Closed by a fault.
    Closed(PeerFault),
}
