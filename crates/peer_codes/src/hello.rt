use crate::limits::{DIGEST_BYTES, LIFE_BYTES, NONCE_BYTES};
use crate::version::Version;
use paxos_wire::Ballot;

/// Who speaks to whom, and of how many nodes; nodes are counted from 0.
#[derive(Clone, Copy, Debug, PartialEq, Eq)]
pub struct Ends {
    /// The node that speaks.
    pub from: u8,
    /// The node that it speaks to.
    pub to: u8,
    /// How many nodes the match has.
    pub nodes: u8,
}

/// The digest of a match's setting, by which two nodes see that they play the same.
#[derive(Clone, Copy, Debug, PartialEq, Eq)]
pub struct MatchDigest {
    pub bytes: [u8; DIGEST_BYTES],
}

/// The life of a store, drawn when it was made: a store that was lost and made anew has another. Its bytes aren't all 0.
#[derive(Clone, Copy, Debug, PartialEq, Eq)]
pub struct Life {
    pub bytes: [u8; LIFE_BYTES],
}

/// Bytes that a side drew for this connection alone.
#[derive(Clone, Copy, Debug, PartialEq, Eq)]
pub struct Nonce {
    pub bytes: [u8; NONCE_BYTES],
}

/// The kind of a connection.
#[derive(Clone, Copy, Debug, PartialEq, Eq)]
pub enum Link {
    /// Without codes.
    Plain,
    /// With codes, and the nonce of the side that says so.
    Coded(Nonce),
}

/// What each side of a connection says first.
#[derive(Clone, Copy, Debug, PartialEq, Eq)]
pub struct Hello {
    /// Its version: whether records of further kinds may come behind it.
    pub version: Version,
    /// Who speaks to whom.
    pub ends: Ends,
    /// The match that the speaker plays.
    pub digest: MatchDigest,
    /// The life of the speaker's own store.
    pub life: Life,
    /// The life that the speaker keeps of the store of the node that it speaks to, if it saw one.
    pub kept: Option<Life>,
    /// The ballot that the speaker has promised, if it promised one.
    pub promised: Option<Ballot>,
    /// Whether the connection has codes.
    pub link: Link,
}
