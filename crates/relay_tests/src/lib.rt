//! Tests of the relay (`relay_runs`, `seat_relay`) over wires in memory, by its public calls alone: what no clause says. The
//! same over sockets of the built program: tests/relay.
//!
//! - `table` has a relay with its nodes and its bot; `test_wire` its wires, whose bot may be deaf and whose nodes may be down.
//! - `line_tests`: nodes and bots that send anything; a bot that doesn't read; each call of a wire failing once.
//! - `answer_tests`: when an answer is said to whom.
//! - `hold_tests`: when nodes aren't dialled, and when a relay gives up.
//! - `resume_tests`: what nodes are asked for, and how a relay ends by what they say.
//! - `growth_tests`: a relay whose memory is refused. `tests/relay_growths` runs that as often as it allocates.
#![tactic(auto)]

#[cfg(test)]
mod answer_tests;
#[cfg(test)]
mod growth_tests;
#[cfg(test)]
mod hold_tests;
#[cfg(test)]
mod line_tests;
#[cfg(test)]
mod resume_tests;
#[cfg(test)]
mod table;
#[cfg(test)]
mod test_wire;
