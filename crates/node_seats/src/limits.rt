//! The counts of a process's seats. Times are in microseconds.

/// The most bytes of a piece that is taken of a bot at once.
pub const PIECE: usize = 512;

/// A bot for whom so many bytes wait is told no further line until it has read some.
pub const BACKLOG: usize = 1 << 16;

/// The most bytes of a line that is read before a bot has named the version.
pub const WORDS: usize = 4096;

/// The bytes of a line that shows a token, where CR LF ends it. Of a longer one no more is read.
pub const TOKEN_LINE: usize = 73;

/// A guest is refused who hasn't said his line within this time.
pub const TOKEN_TIME: u64 = 2_000_000;

/// A bot that hasn't named the protocol's version within this time since it was taken in is let go of.
pub const VERSION_TIME: u64 = 10_000_000;

/// So long at most what a bot says is read on, where its node has no quorum and is to tell it so.
pub const RESUME_TIME: u64 = 2_000_000;
