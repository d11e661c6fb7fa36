//! How long records and their parts are, each in this one place.

/// Nodes are numbered from 0 to one below this.
pub const NODES: u8 = paxos_wire::limits::NODES;

/// The bytes of a record's length itself.
pub const LENGTH_BYTES: usize = 4;

/// The bytes of a tag: those of a proof, and those behind what is sent of a coded record.
pub const TAG_BYTES: usize = 32;

/// The least bytes of a frame: a length, a version and a kind.
pub const LEAST_FRAME: usize = paxos_wire::limits::LENGTH_BYTES + paxos_wire::limits::LEAST_LENGTH;

/// The most bytes of a frame, its length's four among them.
pub const MOST_FRAME: usize = paxos_wire::limits::LENGTH_BYTES + paxos_wire::limits::MOST_LENGTH;

/// The most that a record's length may say: a kind, a frame, and its tag.
pub const MOST_LENGTH: usize = 1 + MOST_FRAME + TAG_BYTES;

/// The most bytes of a record, its length's four among them.
pub const MOST_RECORD: usize = LENGTH_BYTES + MOST_LENGTH;

/// What a Hello of the first version begins with, the bytes `HDN1`, as a number.
pub const FIRST_MAGIC: u32 = 0x4844_4e31;

/// What a Hello of the second version begins with, the bytes `HDN2`, as a number.
pub const SECOND_MAGIC: u32 = 0x4844_4e32;

/// The least byte of a kind of records without a name here.
pub const LEAST_MORE: u8 = 4;

/// The one byte above them that tells no kind: the last of `HDN1 seal`, an `l`, so that no record's number and kind are that
/// text.
pub const NO_KIND: u8 = 108;

/// The bytes of the digest of a match.
pub const DIGEST_BYTES: usize = 32;

/// The bytes of the life of a store.
pub const LIFE_BYTES: usize = 16;

/// The bytes of a nonce.
pub const NONCE_BYTES: usize = 32;

/// The bytes of a ballot.
pub const BALLOT_BYTES: usize = paxos_wire::limits::BALLOT_BYTES;

/// The bytes of the Hello of a plain connection.
pub const PLAIN_HELLO_BYTES: usize = 8 + DIGEST_BYTES + 2 * LIFE_BYTES + BALLOT_BYTES;

/// The bytes of the Hello of a connection with codes: a nonce stands behind the others.
pub const CODED_HELLO_BYTES: usize = PLAIN_HELLO_BYTES + NONCE_BYTES;

/// The bytes of a beat.
pub const BEAT_BYTES: usize = 15;

/// The bytes of the key of a match, and of those that are made from it.
pub const KEY_BYTES: usize = 32;

/// No record has this number: all before it are used up first.
pub const LAST_NUMBER: u64 = u64::MAX;

/// The most bytes behind the kind of a coded record.
pub const MOST_CONTENT: usize = MOST_FRAME + TAG_BYTES;
