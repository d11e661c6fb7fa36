//! Serves a match: a cluster of nodes, its seats over links, and a log for each node.
//!
//! The way through it: `Server::new` takes a cluster, its links, its outages (`Outages::new`) and what is done about
//! absent seats, empties each log and gives it what the record has. Then `Server::turn` again and again, until it
//! answers `Turn::Over` or a fault. A turn does the first thing that is due (`next_due`), which is at most one call of
//! a node: a frame is carried to its node, a line of a seat is handed on, a node ticks, stops or starts, a seat is
//! connected, dropped or played for. Before it the links make the room for what any node may show by its next call, or
//! the one that is brought the next frame; what the call showed is given to its readers before the turn ends. Where a
//! seat that is awaited or read from sends nothing, the turn is `Turn::Waits`: nothing was done, and the same turn comes
//! again.
//! Between turns `awaited` tells which seat the next one waits for, `place` where a seat is, `last_node` and
//! `last_fault` which node was called last and what refused it, `last_piece` what was read last. What a server reaches
//! outside are `match_links::Links`. A whole match is played by the test `a_match_outlives_a_node` of `match_tests`.
//!
//! Faults (`ServeFault`): 105 where a port or a connection between nodes fails, 106 where a log does, and those of a
//! node's call: 91 where a node's store fails for the second time, 92 for want of memory, by which nothing has changed
//! and the same turn may be taken again, 93, 94, 95 and 96. A seat's link that fails is none: the seat is dropped.
#![tactic(auto)]

mod checking;
mod desk;
mod due;
mod known;
pub mod laws;
mod limits;
mod most;
mod outages;
mod place;
mod places;
mod progress;
mod seeing;
mod serve_fault;
mod server;
mod taking;
mod turn;
mod waiting;

pub use due::{Due, next_due};
pub use known::{Known, NodeSight, Repair};
pub use outages::Outages;
pub use place::Place;
pub use serve_fault::ServeFault;
pub use server::Server;
pub use turn::Turn;
