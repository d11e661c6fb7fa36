//! The learner of 'Paxos Made Simple' for a row of slots: it counts which nodes accepted which command in which
//! ballot, and keeps the log of what was chosen. `laws` has what its counts mean among the messages of nodes.
//!
//! `Learner::new` knows nothing. `on_accepted` counts a node's answer, where its slot is one of the 64 from the front
//! on, and tells what it completes as `Chosen`; `on_accepted_run` does so for a command run, one command for each of
//! some slots that follow one another; `on_chosen` takes another node's word for it. `log` has what is known, and its
//! `front` is the first slot that isn't. After `reserve` the calls with `reserved` in their names take no memory. It
//! neither stores nor sends anything.
//!
//! The test `nodes_are_counted` of `paxos_tests` makes a quorum of three nodes, `the_window_moves` moves the front on.
//! The one fault is `slot_log::SlotFault::Conflict`, 30: another command is known at the slot; nothing has changed
//! then.
#![tactic(auto)]

mod chosen;
mod hearing;
pub mod laws;
mod learner;
mod tally;

pub use chosen::Chosen;
pub use learner::Learner;
pub use tally::Tally;
