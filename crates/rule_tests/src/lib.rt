//! Tests of cards, games, lines, logs and frames, by the public calls of their crates alone: the walk through each crate's
//! calls that its manual names, decks that came from outside, and each call that no program of this repository makes, once.
//! A module a crate, from `card_core` to `dealer_kind` and `play_script`, but for `slot_log`, which has two, and
//! `paxos_wire`, whose frames, feeds and records have one each; `samples` has the games and cards that they share, `frames`
//! the frames, and `asserting` the assertions.
//!
//! What else is asked of these calls a clause says, and the programs make them in the rows and scripts of `tests/`.
//! Match files are tested so too, by rows of `tests/inputs` and by `tests/init_node`.
//!
//! They stand in a crate of their own, which has nothing else: a crate with tests is proved twice, once without them and
//! once with all of it, and each crate that is tested here is so proved once.
//!
//! Where a test makes many calls with long contracts, as in `session_tests`, each call is made in one small function that
//! says nothing of its own, so that what the prover knows there isn't carried through all tests.
#![tactic(auto)]

#[cfg(test)]
mod asserting;
#[cfg(test)]
mod betting_tests;
#[cfg(test)]
mod card_tests;
#[cfg(test)]
mod draw_tests;
#[cfg(test)]
mod feed_tests;
#[cfg(test)]
mod frames;
#[cfg(test)]
mod game_def_tests;
#[cfg(test)]
mod kind_tests;
#[cfg(test)]
mod line_tests;
#[cfg(test)]
mod match_log_tests;
#[cfg(test)]
mod pot_tests;
#[cfg(test)]
mod rank_tests;
#[cfg(test)]
mod record_tests;
#[cfg(test)]
mod samples;
#[cfg(test)]
mod script_tests;
#[cfg(test)]
mod session_tests;
#[cfg(test)]
mod slot_log_tests;
#[cfg(test)]
mod slots_tests;
#[cfg(test)]
mod wire_tests;
