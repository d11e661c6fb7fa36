//! The limits of a game, each in this one place; how many may play stands in `card_core::limits`.

/// The most chips of a stack, a blind or a raise.
pub const MOST_CHIPS: u64 = 2_147_483_647;

/// The rounds of a hand: before the flop, flop, turn, river.
pub const ROUNDS: usize = 4;
