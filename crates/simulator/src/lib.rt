//! All processes of a match (`node_service`) over one virtual clock, by a script of faults; what they do is a trace.
#![tactic(auto)]

mod flood;
mod place;
mod plan;
mod running;
mod telling;
mod world;

pub use plan::Plan;
pub use running::run;
