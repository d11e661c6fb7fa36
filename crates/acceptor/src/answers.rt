use paxos_wire::{Ballot, Commands, Entries};
use slot_log::Command;

/// What an acceptor answers a Prepare with.
#[derive(Clone, Copy, Debug, PartialEq, Eq)]
pub enum PrepareAnswer {
    /// It promised the ballot, and tells what it accepted at the 64 slots from the slot on, by rising slots.
    Promise {
        ballot: Ballot,
        slot: u32,
        entries: Entries,
    },
    /// It has promised a ballot that isn't below.
    Refuse {
        ballot: Ballot,
        slot: u32,
        promised: Ballot,
    },
}

/// What an acceptor answers a proposal with.
#[derive(Clone, Copy, Debug, PartialEq, Eq)]
pub enum AcceptAnswer {
    /// It accepted this command at the slot in the ballot.
    Accepted {
        ballot: Ballot,
        slot: u32,
        command: Command,
    },
    /// It has promised a ballot above.
    Refuse {
        ballot: Ballot,
        slot: u32,
        promised: Ballot,
    },
}

/// What an acceptor answers a run of proposals with: commands for slots that follow one another, in one ballot.
#[derive(Debug, Drop)]
pub enum RunAnswer<'a> {
    /// In the ballot it accepted these commands, one at each slot from this one on.
    Accepted {
        ballot: Ballot,
        slot: u32,
        commands: Commands<'a>,
    },
    /// It has promised a ballot above.
    Refuse {
        ballot: Ballot,
        slot: u32,
        promised: Ballot,
    },
}
