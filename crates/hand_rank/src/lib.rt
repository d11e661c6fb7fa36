//! What hands of cards are worth: the value of five cards, and the best five of seven.
//!
//! Values are compared, and read by category and ranks; nothing of players, pots or betting is known here.
//!
//! `best_of_seven` answers the value of the best five of seven different cards, `value_of_five` that of five; a
//! `HandValue` above another wins. `best_of_all_fives` does the same as `best_of_seven` by looking at all fives, and is
//! there to compare with. No call fails or takes memory. The test `best_of_seven_cards` of `rule_tests` shows it; the
//! ranking stands in `specs/Five.antt` and `specs/Best.antt`.
#![tactic(auto)]

mod all_fives;
mod five;
mod hand_value;
mod laws;
mod profile;
mod rank_set;
mod seven;

pub use all_fives::best_of_all_fives;
pub use five::value_of_five;
pub use hand_value::HandValue;
pub use laws::order_of_cards_is_of_no_account;
pub use seven::best_of_seven;
