use crate::beat::Beat;
use crate::frame::Frame;
use crate::hello::Hello;
use crate::more::More;

/// What came over a connection.
#[derive(Drop)]
pub enum Event {
    /// The other's Hello. The side that was called answers with its own.
    Greeted(Hello),
    /// The other's proof is right: frames and beats may follow, and behind Hellos of the second version records of further
    /// kinds.
    Opened,
    /// A frame of the other node.
    Frame(Frame),
    /// How the other is.
    Beat(Beat),
    /// A record of a further kind, behind Hellos of the second version. Who doesn't know the kind passes it over.
    More(More),
}
