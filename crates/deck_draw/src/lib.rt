//! Decks that every node draws alike: a hand's deal is the beginning of the pack, shuffled once by the random
//! numbers that a seed and the hand's number give.
//!
//! There is one call, `draw`, of a seed, a hand's number from 0 and the number of players; the test
//! `decks_are_the_known_ones` of `rule_tests` compares it with decks that were made outside. It can't fail, and takes
//! no memory. What a deck is stands in `specs/Deck.antt`; `laws` says of every deck and every draw that it is one.
#![tactic(auto)]

mod deck;
pub mod laws;

pub use deck::draw;
