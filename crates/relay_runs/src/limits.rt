//! The counts of a relay. Times are in microseconds.

/// The most bytes of a piece that is read at once.
pub(crate) const PIECE: usize = 512;

/// So many pieces at most are read of one connection before others are looked at.
pub(crate) const PIECES: usize = 64;

/// The most bytes of a line, without its end.
pub(crate) const LONGEST_LINE: usize = 4096;

/// While so many bytes wait for the bot, no node is read.
pub(crate) const BACKLOG: usize = 64 << 10;

/// While so many bytes of the trace wait, no further line is put into it.
pub(crate) const TRACE_BACKLOG: usize = 1 << 20;

/// A node is dialled anew so long after its connection ended.
pub(crate) const DIAL_PAUSE: u64 = 200_000;

/// And so long after the first short connection: if the node was lost it refuses then.
pub(crate) const SHORT_PAUSE: u64 = 20_000;

/// An answer after which no line comes for so long is said to another node; the time is doubled each time.
pub(crate) const FIRST_PATIENCE: u64 = 500_000;

/// It is doubled up to this.
pub(crate) const MOST_PATIENCE: u64 = 4_000_000;

/// Where each node that is reached has said for so long that it has another match, the relay ends.
pub(crate) const OTHER_TIME: u64 = 10_000_000;

/// A node that said that the match is over, or that it has another one, is dialled anew so long after.
pub(crate) const OTHER_PAUSE: u64 = 1_000_000;

/// A node that has no quorum is dialled anew so long after it said so.
pub(crate) const NO_QUORUM_PAUSE: u64 = 500_000;

/// The first line of a connection that is ahead of the bot waits so long for what other nodes tell before it.
pub(crate) const AHEAD_TIME: u64 = 200_000;

/// A connection that ends within this time is a short one.
pub(crate) const SHORT_TIME: u64 = 1_000_000;

/// After so many short connections in a row at different nodes no node is dialled for a while.
pub(crate) const SHORT_COUNT: u32 = 3;

/// That while at first; each further pause is twice as long.
pub(crate) const FIRST_HOLD: u64 = 5_000_000;

/// It is doubled up to this.
pub(crate) const MOST_HOLD: u64 = 60_000_000;

/// A turn waits so long at most.
pub(crate) const MOST_WAIT: u64 = 1_000_000;

/// At most so many notices are kept until they are taken.
pub(crate) const NOTICES: usize = 64;
