//! The times of those who ask, in whole microseconds.

/// One who asks has so long to take his line.
pub const REPLY_LIMIT: u64 = 2_000_000;
