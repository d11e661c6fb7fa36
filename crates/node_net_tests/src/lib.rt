//! Tests of the connections between nodes in processes of their own (`node_links`, `node_wires`, `node_peers`,
//! `node_seats`), by their public calls alone. The same over sockets of the built program: tests/processes.
//!
//! - `samples` has two nodes of three and what they say; `pair` two processes whose wires are joined in memory.
//! - `node_peers_tests`: processes that meet, with a key and without, refuse each other, lose each other and meet again; each call
//!   of a wire failing once.
//! - `caller_tests`: who dials node 0, byte for byte: taken, refused, counted, replaced.
//! - `anew_tests`: who is dialled anew beside a silent connection, and callers who are counted.
//! - `again_tests`: what is sent again, and what is owed.
//! - `aside_tests`: which Prepares and Accepts of peers are told, and when.
//! - `lives_tests`: what is said behind Hellos of the second version, and which lives are known by it.
//! - `older_tests`: older copies of stores, which promise less than they had promised.
//! - `turn_tests`: in which version a peer is dialled, and when.
//! - `coded_tests`: what is said over connections with codes: each byte of it changed, said again, and dropped in part.
//! - `seat_tests`: the bots of seats, with tokens and without.
//! - `seat_port_tests`: who comes to a seat's port, over sockets of this machine.
//! - `tcp_tests`: strangers over sockets of this machine.
#![tactic(auto)]

#[cfg(test)]
mod again_tests;
#[cfg(test)]
mod anew_tests;
#[cfg(test)]
mod aside_tests;
#[cfg(test)]
mod caller_tests;
#[cfg(test)]
mod coded_tests;
#[cfg(test)]
mod lives_tests;
#[cfg(test)]
mod node_peers_tests;
#[cfg(test)]
mod older_tests;
#[cfg(test)]
mod pair;
#[cfg(test)]
mod samples;
#[cfg(test)]
mod seat_port_tests;
#[cfg(test)]
mod seat_tests;
#[cfg(test)]
mod tcp_tests;
#[cfg(test)]
mod turn_tests;
