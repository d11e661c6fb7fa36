use crate::ballot::Ballot;
use slot_log::Command;

/// What an acceptor accepted at a slot.
#[derive(Clone, Copy, Debug, PartialEq, Eq)]
pub struct Entry {
    /// Counted from 0.
    pub slot: u32,
    /// The ballot that it was accepted in.
    pub ballot: Ballot,
    /// What was accepted.
    pub command: Command,
}
