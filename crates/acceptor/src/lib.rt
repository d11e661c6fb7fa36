//! The acceptor of 'Paxos Made Simple' for a row of slots: it promises ballots and accepts proposals, and answers only
//! what its store keeps. `laws` has what its answers mean among the moves of nodes.
//!
//! `Acceptor::new` takes a `promise_store::Store` that was created or opened. `on_prepare`, `on_accept` and
//! `on_accept_run`, which takes a run of proposals for slots that follow one another, take what came, of its own node
//! too; what they answer is stored before they answer, by one append at most, and goes into the frame for the sender
//! (`PrepareAnswer`, `AcceptAnswer`, `RunAnswer`). `reserve` makes room for slots, so that `on_accept_reserved` and
//! `on_accept_run_reserved` take no memory. `close` hands the disk back.
//!
//! The test `what_was_accepted_is_told` of `paxos_tests` walks this way. Faults are those of the store, 63, 64 and 92:
//! after 63 and 64 the disk is to be opened again, which finds what was stored before the call, with or without what
//! the call was to store.
#![tactic(auto)]

mod acceptor;
mod answers;
pub mod laws;
mod telling;

pub use acceptor::Acceptor;
pub use answers::{AcceptAnswer, PrepareAnswer, RunAnswer};
