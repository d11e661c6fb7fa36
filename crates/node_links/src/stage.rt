use crate::peer_fault::PeerFault;
use peer_codes::Hello;

/// How far a connection with codes is, as one side has it.
#[derive(Clone, Copy, Debug)]
pub enum Stage {
    /// Waits for the other's Hello.
    Greeting,
    /// The other's Hello came, and isn't judged yet.
    Asked(Hello),
    /// The other's Hello is one of this match. Waits for the other's proof.
    Matched(Hello),
    /// The other's proof is right: what its Hello changes isn't judged yet.
    Proved(Hello),
    /// The other's Hello was taken.
    Open(Hello),
    /// Closed by a fault.
    Closed(PeerFault),
}
