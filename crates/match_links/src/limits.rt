//! The limits of links, each in this one place. Links know nothing of matches, so these numbers aren't taken from those
//! of a match: who serves a match over links compares the two.

/// Nodes are numbered from 0 to one below this.
pub const NODES: usize = 7;

/// The most bytes of a piece: one more than those of the longest line, so that a line that is too long is seen to be.
pub const PIECE: usize = 4097;

/// The most bytes of a line that a seat is told, without its line end.
pub const LINE: usize = PIECE - 1;

/// The most bytes of a frame.
pub const FRAME: usize = 2576;

/// How many seconds a wait for a seat takes at most: for its connection, or for a piece of what it sends.
pub const WAIT_SECONDS: u64 = 5;

/// How many connections are held at a seat's port, and how many at once that are turned away. The rest stay in the
/// system's queue.
pub const HELD: usize = 16;

/// After how many milliseconds a connection is closed that is turned away.
pub const TURNED_AWAY_MILLISECONDS: u64 = 200;

/// How many seconds a seat's connection may take for a line, or to end behind its last one.
pub const PATIENCE_SECONDS: u64 = 2;
