//! Lengths of time are whole microseconds.

/// The latest moment that there may be: it lies more than a hundred thousand years ahead.
pub const LATEST: u64 = 0x4000_0000_0000_0000;

/// How many other nodes a match has at most.
pub const MOST_PEERS: usize = 6;

/// How many nodes it has at most.
pub const MOST_NODES: usize = 7;

/// Two ticks of a process are at least so far apart.
pub const SPACE: u64 = 5_000;

/// Where several nodes may tick for one reason, each does so much later than the one before it.
pub const STEP: u64 = 30_000;

/// The least of what a node waits for answers, for another's lead, and until a silent peer counts as absent.
pub const SHORTEST: u64 = 1_000_000;

/// The most of what a node waits for answers and for another's lead, also where that is doubled, and the most of every other
/// wait for a tick but its steps.
pub const LONGEST: u64 = 256_000_000;

/// Between these two bounds, a node waits for answers so many times as long as the slowest took (`Longest`).
pub const SLACK: u64 = 8;

/// A wait is doubled up to so many times as long as a node waits for answers at first, and to `LONGEST`.
pub const DOUBLED: u64 = 8;

/// The most for which a silent peer counts as present.
pub const MOST_SILENT: u64 = 64_000_000;

/// Between `SHORTEST` and that, a silent peer counts as present so many times as long as the slowest took.
pub const SILENT: u64 = 2;

/// What was measured counts for twice so long, and for less than three times.
pub const PART: u64 = 30_000_000;

/// How late turns came is taken by stretches of so long.
pub const STRETCH: u64 = 1_000_000;

/// The least time for which the front of a peer has been below this node's without having moved when the peer lags.
pub const LAG: u64 = 200_000;

/// The most to which the wait between ticks for a peer that lags is doubled, unless the first was longer.
pub const MOST_HELP: u64 = 2_000_000;

/// How long a node that is behind waits where the match is over at all nodes that are ahead of it.
pub const ALONE: u64 = 200_000;

/// How long it waits where a node ahead of it may still tell it what it lacks.
pub const BEHIND: u64 = 2_000_000;

/// The order to play for a seat isn't given again before so long has passed, or the patience where that is shorter.
pub const ORDERED_AGAIN: u64 = 8_000_000;

/// The longest patience, a day.
pub const LONGEST_PATIENCE: u64 = 86_400_000_000;

/// Of a seat that is given up so many turns wait a while, and all further ones don't.
pub const SLOW_TURNS: u32 = 20;

/// How long each of these waits, unless the patience is shorter.
pub const SLOW_TURN: u64 = 500_000;

/// A process slept where its clock leapt by more than so long, beyond what it asked to wait and its own calls took: as long as
/// the shortest patience.
pub const LEAP: u64 = 100_000;

/// Behind a sleep so many further beats of a peer are awaited.
pub const FURTHER: u8 = 2;

/// A process looks again after at most so long, whatever it waits for.
pub const LOOK: u64 = 1_000_000;
