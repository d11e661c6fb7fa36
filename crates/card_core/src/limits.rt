//! The sizes of tables and deals, each in this one place.

/// The most players of a hand.
pub const PLAYERS: usize = 10;

/// The most cards of a deal: two for each player, and five for the board.
pub const CARDS: usize = 25;
