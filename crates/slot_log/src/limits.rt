//! The ranges of the numbers of commands and slots, each in this one place.

/// Hands of a match are numbered from 0 to one below this.
pub const HANDS: u32 = 10_000;

/// The actions of a hand are numbered from 0 to one below this.
pub const ACTIONS: u16 = betting::limits::ACTIONS as u16;

/// Slots are numbered from 0 to one below this.
pub const SLOTS: u32 = 4_000_000;
