//! Tests of nodes, clusters and served matches, by their public calls alone.
//!
//! They stand in a crate of their own, which has nothing else: a crate with tests is proved twice, once without them and
//! once with all of it, and what is tested here (`dealer_node`, `dealer_world`, `stations`,
//! `serving`) is so proved once.
//!
//! - `samples` has the matches that are played: alice and bob, limit, one hand or two.
//! - `peer` and `dealer_node_tests`: an order to one node of three that refuses it.
//! - `rounds` and `choice_tests`: a round of all nodes of a match, and the record of it; `run_tests`: events that are given
//!   at once, and the rest of them again where memory was wanting.
//! - `course` and `server_tests`: a match that is served over links in memory, whose calls fail in turn, and over disks
//!   whose calls do; `slow_tests`: the same, each call of a link being slow in turn; `want_tests`: each wait for a seat
//!   finding no memory in turn. Over sockets and files it is served by `tests/serve`, through the program.
//!   `lost_leader` looks at what one node passes on to another that is down.
//! - `resumed_tests`: a match that is served over stores which tell of many commands at once.
//! - `absent_fault_tests`: the match where seats were dropped and are played for, also where a call of a link fails.
//! - `processes` and `station_tests`: the nodes of a match as stations, each in a process of its own, of which one dies in
//!   each call of its disk in turn.
//! - `links_tests`: who is seated at a port and who isn't, and how long that is waited for.
//!
//! Each call with a long contract is made in one small function that says nothing of its own, so that what the prover
//! knows there isn't carried through all tests; and each of these is written for any disk, so that it is proved once.
#![tactic(auto)]

#[cfg(test)]
mod absent_fault_tests;
#[cfg(test)]
mod choice_tests;
#[cfg(test)]
mod course;
#[cfg(test)]
mod dealer_node_tests;
#[cfg(test)]
mod links_tests;
#[cfg(test)]
mod lost_leader;
#[cfg(test)]
mod peer;
#[cfg(test)]
mod processes;
#[cfg(test)]
mod resumed_tests;
#[cfg(test)]
mod rounds;
#[cfg(test)]
mod run_tests;
#[cfg(test)]
mod samples;
#[cfg(test)]
mod server_tests;
#[cfg(test)]
mod slow_tests;
#[cfg(test)]
mod station_tests;
#[cfg(test)]
mod want_tests;
