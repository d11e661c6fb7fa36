//! The proposer of 'Paxos Made Simple': it begins ballots, counts the promises of nodes, and proposes at the 64
//! slots that its Prepare covers. `laws` has what its counts and proposals mean among the messages of nodes.
//!
//! `Proposer::new` is idle. `begin` begins the ballot of the round after all that was seen, and gives its Prepare;
//! `on_promise` counts promises, the node's own too, until more than half of the nodes have promised and it
//! `is_leading`; `propose` then gives what is to be proposed at a slot, and `propose_run` with it what is told of the
//! slots behind, a command run, of which `most_commands` tells before how long it may be. `on_refuse` and `turn_idle`
//! give the ballot up. It takes no memory, and neither stores nor sends anything.
//!
//! The test `a_window_of_64_slots` of `paxos_tests` walks this way. Faults: `BallotsSpent`, 70, where there is no
//! further round; `ProposeFault`, 71, for a slot outside the 64; nothing has changed then.
#![tactic(auto)]

mod accept;
mod accept_run;
mod batch;
mod campaign;
mod fault;
pub mod laws;
mod prepare;
mod proposer;

pub use accept::Accept;
pub use accept_run::AcceptRun;
pub use fault::{BallotsSpent, ProposeFault};
pub use prepare::Prepare;
pub use proposer::Proposer;
