//! Luck told from skill, by the log of a match alone: how far the cards of each street moved what each player could
//! expect of the pots.
//!
//! There is one call, `lucks_of_log`, of the bytes of a log and its game: a line for each hand and position with the name,
//! the payoff and the luck, or the first fault that `match_log::check` finds. Payoffs less luck are what the league calls
//! adjusted results. All hole cards count as known, also those that were folded. Behind the flop each deal that may come is
//! counted; before it as many are drawn by ChaCha20 under the SHA-256 of the whole log, so nobody knows them beforehand.
//!
//! What luck is stands in `specs/Lucks.antt`, over what `side_pots::settle` answers. Faults: `LuckFault`.
#![tactic(auto)]

mod card_list;
mod completions;
mod drawing;
mod fault;
mod hand_luck;
pub mod laws;
mod left_cards;
mod lines;
mod reading;
mod stakes;
mod streets;
mod sums;

pub use fault::LuckFault;
pub use lines::lucks_of_log;
