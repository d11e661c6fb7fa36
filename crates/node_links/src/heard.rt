use crate::further::Further;
use peer_codes::{Beat, Frame, Hello};

/// What came over a connection.
#[derive(Drop)]
pub enum Heard {
    /// The other's Hello. It is judged next, and the side that was called answers with its own.
    Hello(Hello),
    /// The other's proof is right, on a connection with codes. What its Hello changes is judged next.
    Proved(Hello),
    /// A frame of the other node.
    Frame(Frame),
    /// How the other is.
    Beat(Beat),
    /// What a record of a further kind tells.
    Further(Further),
}
