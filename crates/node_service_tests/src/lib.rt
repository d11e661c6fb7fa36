//! Tests of nodes in processes of their own (`node_service`), by their public calls alone: several servers whose wires are
//! joined in memory, and the bots of their seats.
//!
//! - `samples` has the match that is played, the stores of its nodes, and their processes.
//! - `bot`: the bot of a seat, which dials one node after another.
//! - `place`: a node, with its process or without; `world`: all of them, turn after turn; `carrying`: what goes between them.
//! - `match_tests`: a match to its end, also where processes die; `fault_tests`: each call of a wire failing once.
//! - `cut_wire`, `cut_disk`, `calls_left`: wires and a disk of which no call does anything from one moment on; `kill_tests`:
//!   processes that are killed in the middle of a turn, which are taken for those.
//! - `resume_tests`: what a bot is told that asks for lines from one on.
//! - `follower_tests`: who comes to a seat whose bot went.
//! - `away_tests`: a match at which nobody sits, and what is told to one who asks.
//! - `apart_tests`: who comes to a node that is without a quorum, and who sits there when it loses it.
//! - `copy_tests`: a node whose store is an older copy of the one that its peers know, and what they know of it; `slow_tests`: a node
//!   that gets little of a processor.
//! - `caller_tests`: who comes to seats that have tokens, among strangers.
#![tactic(auto)]

#[cfg(test)]
mod apart_tests;
#[cfg(test)]
mod away_tests;
#[cfg(test)]
mod bot;
#[cfg(test)]
mod caller_tests;
#[cfg(test)]
mod calls_left;
#[cfg(test)]
mod carrying;
#[cfg(test)]
mod copy_tests;
#[cfg(test)]
mod cut_disk;
#[cfg(test)]
mod cut_wire;
#[cfg(test)]
mod fault_tests;
#[cfg(test)]
mod follower_tests;
#[cfg(test)]
mod kill_tests;
#[cfg(test)]
mod match_tests;
#[cfg(test)]
mod place;
#[cfg(test)]
mod resume_tests;
#[cfg(test)]
mod samples;
#[cfg(test)]
mod slow_tests;
#[cfg(test)]
mod world;
