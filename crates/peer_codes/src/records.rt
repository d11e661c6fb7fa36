use crate::beat::Beat;
use crate::frame::Frame;
use crate::hello::Hello;
use crate::limits::TAG_BYTES;
use crate::more::More;

/// That a side has the key: a tag under it, over its role and both Hellos.
#[derive(Clone, Copy, Debug, PartialEq, Eq)]
pub struct Proof {
    pub tag: [u8; TAG_BYTES],
}

/// What the two sides of a connection say to each other.
#[derive(Drop)]
pub enum Record {
    /// The first of each side.
    Hello(Hello),
    /// The second of each side, where the connection has codes.
    Proof(Proof),
    /// What one node says to the other.
    Frame(Frame),
    /// How the speaker is.
    Beat(Beat),
    /// What has another kind: only behind Hellos of the second version.
    More(More),
}
