//! The times of a node's process, each in this one place. Times are whole microseconds.

/// What peers told is taken for so long in a turn at most, and what was begun then; the rest waits for the next turn. One thing is taken
/// in any case.
pub const CALLS: u64 = 20_000;

/// So many things are taken in any case where each behind the first costs no sync, so that a process that gets little of a processor
/// keeps up with what well peers send it.
pub const LEAST_TAKEN: u64 = 4;

/// In so many turns all that lay at the seats when the process woke is read, of each one thing a turn: more than a bot sends ahead, and
/// all who wait at a port.
pub const LOOKS: u8 = 64;

/// Those who dialled are taken in for so many microseconds in a turn, and as long those who came to the ports of seats with tokens; what is
/// begun by then is ended. As much of what each took isn't sleep of the process.
pub const CALLERS: u64 = 25_000;

/// What a call, or a wait beyond what was asked for, takes longer than this isn't counted as the peers' silence.
pub const LONG: u64 = 50_000;

/// So long a node is without a quorum until it is apart: who sits is told to come again later, and let go of, so that bots go
/// elsewhere.
pub const HANG_UP: u64 = 300_000;

/// A node that is apart looks so often at least for how long bots sit there.
pub const APART: u64 = 100_000;

/// The match is over here, and the connections that are open have been so, for this long at least when the process ends:
/// beats that say so have gone to all peers by then.
pub const TOLD: u64 = 2 * node_links::limits::BEAT;

/// So long seats may take, once the match is over, to read what they were told.
pub const END_READ: u64 = 2_000_000;

/// So long nothing goes on until it is told for which seat all wait,
pub const WAITING: u64 = 5_000_000;

/// and again each time that so long has passed.
pub const WAITING_AGAIN: u64 = 60_000_000;

/// A bot may wait so long for the line that it named, to which the match hasn't come here.
pub const LINE_WAIT: u64 = 256_000_000;

/// So long after a bot came, a node has heard of its peers how many commands they had applied when it came.
pub const SETTLED: u64 = 2_000_000;

/// So long after a node got a quorum, its match may still be replayed: it learns again what was chosen before.
pub const REPLAYED: u64 = 30_000_000;

/// A line that some node has shown is one of so many commands at most behind those that a node of each quorum has applied: a
/// ballot proposes no command further ahead.
pub const LINE_AHEAD: u32 = 64;

/// Once so long has passed it is told which seats haven't come yet, and again each time that so long has passed.
pub const MISSING: u64 = 60_000_000;

/// Once so long has passed it is told which peers are far behind, and again each time that so long has passed.
pub const BEHIND: u64 = 60_000_000;

/// A peer that is so many commands behind is far behind: more than a ballot proposes ahead.
pub const FAR: u32 = 65;

/// The most nodes of a match.
pub const NODES: usize = clockwork::limits::MOST_PEERS + 1;

/// The most seats.
pub const SEATS: u8 = node_wires::limits::SEATS as u8;

/// The same, as a length.
pub const PLACES: usize = node_wires::limits::SEATS;
