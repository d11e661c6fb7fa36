//! The times and counts of a process's connections to its peers. Times are whole microseconds.

use node_links::limits::{GREET, LONG_CONNECT};
use node_wires::limits::{CALLERS, NODES};

/// The lines to peers that are dialled: one to each node, and behind these a second one to each, over which it is dialled anew
/// beside a connection that is silent.
pub const DIALLED: usize = 2 * NODES;

/// The lines over which nodes speak: those to peers that are dialled, and those of who dialled.
pub const LINKS: usize = DIALLED + CALLERS;

/// How many bytes are read at once.
pub const PIECE: usize = 16_384;

/// How many such pieces of a line are read in a turn, so that nobody who sends without end holds up the others.
pub const PIECES: usize = 4;

/// While so many notices wait to be taken, nothing more is read.
pub const BACKLOG: usize = 1024;

/// One who dialled and isn't open after so long is let go.
pub const STRANGER: u64 = 2_000_000;

/// Of a peer that is there another connection isn't told to be refused (128 `AlreadyHere`) until so long behind a long silence of
/// it, or of this node: meanwhile it may have dialled anew by right.
pub const CAME_BACK: u64 = 2_000_000;

/// The Hello of one who dialled this node is compared with what he had shown as promised so long before he was taken in: he says
/// what he had promised when he dialled, and gives a dial up that isn't answered, or brings no Hello, within half of this.
pub const HELLO_AGE: u64 = 2 * (LONG_CONNECT + GREET);

/// Once dials of a peer have come to nothing for so long that is told, and again each time that so long has passed.
pub const UNREACHED: u64 = 60_000_000;

/// A frame that is set aside waits for the front to come to its slot for so long behind the last time that the front moved, at most.
pub const HOLD: u64 = 200_000;
