//! The sequential dealer of a match as the dealer whose commands the protocol orders.
//!
//! `protocol_model` leaves open what fits, what seats are shown, what a seat's line says and whose deals are whose:
//! here these are the sequential dealer of `slot_log`, the lines of `matchstate`, the logs of `match_log` and what
//! `seat_session` hears (`specs/Kind.antt`). `laws` says that they agree with what sessions answer.
//!
//! `Config::new` takes a match and its nodes, within their limits, and its readers give them back; a node's `Source`
//! gives the node's own deal of each hand by `Source::deal`. The test
//! `a_match_has_three_five_or_seven_nodes_with_deals_for_each_hand` of `rule_tests` makes configs. There are no faults
//! of its own: what isn't within its limits is none.
#![tactic(auto)]

mod config;
pub mod laws;
mod source;

pub use config::Config;
pub use source::Source;
