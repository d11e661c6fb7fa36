//! The times and counts of connections between nodes, each in this one place. Times are whole microseconds.

/// Nodes are numbered from 0 to one below this.
pub const NODES: usize = peer_codes::limits::NODES as usize;

/// The byte of the kind of records that tell lives,
pub const LIVES: u8 = 4;

/// of those that tell settings,
pub const SETTINGS: u8 = 5;

/// and of those that tell a ballot which the other is known to have promised.
pub const PROMISED: u8 = 6;

/// As many bytes as a record of lives has at most behind its kind.
pub const LIVES_BYTES: usize = peer_codes::limits::LIFE_BYTES * NODES;

/// As many bytes as a record of settings has behind its kind,
pub const SETTINGS_BYTES: usize = 12 + TOKENS_BYTES;

/// so many of them of the digest over all tokens.
pub const TOKENS_BYTES: usize = 8;

/// As many bytes as a record of a ballot has behind its kind: its round, and its node.
pub const PROMISED_BYTES: usize = 5;

/// The most bytes of the record of a Hello: a length, a kind, and a Hello with a nonce.
pub const HEADING_BYTES: usize = peer_codes::limits::LENGTH_BYTES
    + 1
    + peer_codes::limits::CODED_HELLO_BYTES;

/// A beat is told so long after the one before it.
pub const BEAT: u64 = 50_000;

/// A dial that isn't answered after so long is given up,
pub const CONNECT: u64 = 500_000;

/// but of so many dials of a peer that aren't answered one after so long: over slow ways none is answered sooner, and a peer
/// that is back is found sooner by short ones.
pub const DIALS: u8 = 4;

pub const LONG_CONNECT: u64 = 2_000_000;

/// A connection whose dial was answered and over which no Hello comes for so long is given up.
pub const GREET: u64 = 2_000_000;

/// Two dials of a peer are at least so far apart.
pub const REDIAL: u64 = 50_000;

/// A peer is dialled so long after a connection to it was closed by a fault, the first time.
pub const REFUSED: u64 = 1_000_000;

/// And no longer than so long after, however often that was.
pub const LONGEST: u64 = 8_000_000;

/// A peer whose system answered a dial that was then closed without a byte is dialled again so long after that, the second
/// time in a row twice as long, the third three times,
pub const CLOSED: u64 = 100_000;

/// and so many times as long at most.
pub const MOST_CLOSED: u8 = 10;

/// A fault of a peer is told again so long after it was told, at the soonest.
pub const REPEATED: u64 = 10_000_000;

/// A process looks again after at most so long, whatever it waits for.
pub const LOOK: u64 = 1_000_000;

/// The least time in which no two Asks of the same block of slots go to a peer.
pub const AGAIN: u64 = 20_000;

/// An act that went on to a peer goes again each time that so long has passed, or the way there and back if that is longer, while
/// the front stands.
pub const FORWARD_AGAIN: u64 = 20_000;

/// While a peer is behind, the last Accepted that was sent to it is sent again each time that so long has passed, or the way there and
/// back if that is longer.
pub const REPEAT: u64 = 100_000;

/// Of callers who aren't known and were refused, a note is made so long after the one before at the soonest.
pub const NOTED: u64 = 1_000_000;

/// The slots that the answer of an Ask tells of reach to the end of a block of so many.
pub const BLOCK: u32 = paxos_wire::limits::WINDOW as u32;

/// The most frames that wait for a peer while a connection to it is open.
pub const WAITING: usize = 1024;

/// The most frames that wait for a peer while none is.
pub const KEPT: usize = 16;
