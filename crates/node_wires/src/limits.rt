//! The counts and times of wires, each in this one place. Times are whole microseconds.

/// Nodes are numbered from 0 to one below this.
pub const NODES: usize = 7;

/// The lines to nodes that are dialled, numbered from 0 to one below this: one to each node, and behind these a second one to each.
pub const DIALLED: usize = 2 * NODES;

/// The places of those who dialled from an address from which no node dials, numbered from 0 to one below this.
pub const OTHERS: usize = 16;

/// How many places are kept for each node among those who dialled, behind the places of others: those of node 0 first.
pub const KEPT: usize = 2;

/// The places of those who dialled, numbered from 0 to one below this.
pub const CALLERS: usize = OTHERS + KEPT * NODES;

/// Seats are numbered from 0 to one below this.
pub const SEATS: usize = 10;

/// The places of those who came to the port of any seat and haven't shown a token yet, numbered from 0 to one below this.
pub const ORDINARY: usize = 26;

/// How many places are of each seat alone, behind the places of guests of any seat: those of seat 0 first.
pub const DOORS: usize = 2;

/// The places of those who came to a seat's port and don't sit yet, numbered from 0 to one below this.
pub const GUESTS: usize = ORDINARY + DOORS * SEATS;

/// The places of those who came to the status port, numbered from 0 to one below this.
pub const ASKERS: usize = 8;

/// All lines.
pub const LINES: usize = DIALLED + CALLERS + SEATS + GUESTS + ASKERS;

/// At most so many bytes that were written to another node are gathered, to be sent by one call.
pub const GATHERED: usize = 16_384;

/// Of those who came to one kind of port from one address only so many stand here at once that aren't known yet.
pub const STRANGERS: usize = 8;

/// Who dialled and stands at a place that isn't kept for a node, or who came to a seat's port, makes room for nobody before he has
/// stood for so long.
pub const STANDS: u64 = 300_000;

/// So many of those who dialled, or who came to the port of one seat, are taken off the system's queue in a turn, at most.
pub const TAKEN_AT_ONCE: u16 = 512;

/// Those who dialled and for whom there is no place are turned away for so long by one call, at most.
pub const TURNING_AWAY: u64 = 10_000;

/// How soon a free place of one seat alone is taken: after all others.
pub const LAST: u64 = u64::MAX;
