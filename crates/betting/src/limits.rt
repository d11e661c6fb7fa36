//! The limits of a hand's betting, each in this one place.

/// The most actions of a hand.
pub const ACTIONS: usize = 256;

/// The most actions of a round.
pub(crate) const ACTIONS_OF_A_ROUND: usize = 64;
