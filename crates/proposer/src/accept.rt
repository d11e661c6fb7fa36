use paxos_wire::Ballot;
use slot_log::Command;

/// A proposal: it asks to accept the command in the ballot at the slot.
#[derive(Clone, Copy, Debug, PartialEq, Eq)]
pub struct Accept {
    /// The proposer's own ballot.
    pub ballot: Ballot,
    /// Counted from 0.
    pub slot: u32,
    /// What is proposed.
    pub command: Command,
}
