//! The nodes of a match in processes of their own: what each did, and what holds of all together.
//!
//! A process has one `Station`: `open` goes on from the store that its disk has, `step` gives an event to its node, and what
//! the node makes of it is for the process to hand on. For clauses alone it keeps all that the node did (`specs/Deeds.antt`),
//! and the tables that it had (`specs/Moments.antt`).
//!
//! `laws` says what follows for all processes together, however often each was killed and began again: one list of chosen
//! commands is behind all that they showed, as of a cluster in one process. Its premises are that disks keep their word; that
//! all processes know the same match; that a node has one process at a time and one source of deals, its first process on a
//! new store and each next on what the one before left; and that the calls of all processes have an order, as by one clock,
//! in which each frame had been sent before it came. What a call made counts as sent and shown from then on, though its
//! process may die before it hands it on.
#![tactic(auto)]

mod deeds;
pub mod laws;
mod moments;
mod station;

pub use station::Station;
