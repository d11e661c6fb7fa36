//! A relay between a bot that dials once and the nodes of a match: the dealer's lines, each once and in order, whichever
//! node they come from. It sits at all nodes at once.
//!
//! `Relay` is what a relay knows; it has no connections. Whoever has them cuts what comes into lines, asks `place_of` where
//! a dealer's line stands, and does what an answer says: a line goes to the bot where `tells` answers true, the bot's answer
//! to a node where `pushes` does. `laws` has what holds of all that follows from there, whatever happens.
#![tactic(auto)]

mod events;
pub mod laws;
mod line;
mod link;
mod machine;
mod mending;
mod mode;
mod place;
mod relay;

pub use mending::{mended, mended_answer};
pub use mode::Mode;
pub use place::{Place, place_of};
pub use relay::Relay;
