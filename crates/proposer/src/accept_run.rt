use paxos_wire::{Ballot, Commands};

/// A proposal of a command run: it asks to accept each of the commands in the ballot, the first at the slot, each further
/// one at the slot behind.
#[derive(Debug, Drop)]
pub struct AcceptRun<'a> {
    /// The proposer's own ballot.
    pub ballot: Ballot,
    /// Of the first command; counted from 0.
    pub slot: u32,
    /// What is proposed, from 1 to 64 commands.
    pub commands: Commands<'a>,
}
