//! Betting: who may do what in a hand, in limit and no-limit games of two to ten players with any stacks.
//!
//! `Play` takes the actions of one hand. What is said of it is said of the whole list of its actions: what each
//! position has in, who is to act, when a round and the hand end, and which actions are legal. `laws` has what
//! holds of every legal play.
//!
//! `Play::new` begins a hand of a game. `to_act` says whose turn it is and `raise_range` what he may raise to,
//! until `finished`; `act` takes his action, or tells what is wrong with it and changes nothing. Who knows that an
//! action is allowed, as after `fault`, takes it by `take`. It takes no memory.
//!
//! The test `a_short_all_in_opens_the_betting_again` of `rule_tests` plays a hand of three players so. Faults:
//! `ActFault`, 20 to 26, the first in the order that `specs/Legal.antt` states.
#![tactic(auto)]

mod action;
mod fault;
pub mod laws;
pub mod limits;
mod play;
mod totals;

pub use action::Action;
pub use fault::ActFault;
pub use play::Play;
