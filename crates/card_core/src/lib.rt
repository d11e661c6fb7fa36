//! Cards and deals: which cards lie at which places of a hand, and nothing of what they are worth.
//!
//! `Card` is one of the 52, seen as its number: `Card::from_number` and `number`, or by its two letters
//! `Card::from_text` and `text`. `Deal::new` takes the cards of a hand of 2 to 10 players, two for each position in
//! order and five for the board, and `hole`, `board`, `cards` and `players` give them back, and `seven` all that a
//! position plays; whether two deals are one says `is_same`. What a deal is stands in `specs/Deal.antt`; `limits` has how
//! large it may be.
//!
//! The test `a_deal_lies_at_its_places` of `rule_tests` takes a deal from letters to its places. Faults: `DealFault`, 1
//! another number of cards, 2 a card twice; nothing is made then.
#![tactic(auto)]

mod card;
mod deal;
mod fault;
pub mod limits;

pub use card::Card;
pub use deal::{Deal, are_distinct, has_number};
pub use fault::DealFault;
