use crate::ballot::Ballot;
use crate::command_list::Commands;
use crate::entries::ToldEntries;
use slot_log::Command;

/// What a node says to another, after 'Paxos Made Simple'. Slots are counted from 0. Its lists are borrowed: from the room
/// into which it was read, or from whoever sends it.
#[derive(Debug, Drop)]
pub enum Message<'a> {
    /// Asks for a promise to take no lower ballot, and for what was accepted from the slot on.
    Prepare {
        ballot: Ballot,
        slot: u32,
    },
    /// Promises the ballot, and tells what was accepted at the 64 slots from the slot on, by rising slots.
    Promise {
        ballot: Ballot,
        slot: u32,
        entries: ToldEntries<'a>,
    },
    /// Refuses the ballot at the slot, since one that isn't below it was promised.
    Refuse {
        ballot: Ballot,
        slot: u32,
        promised: Ballot,
    },
    /// Asks to accept the commands in the ballot, 1 to 64, the first at the slot and each further one at the slot behind.
    Accept {
        ballot: Ballot,
        slot: u32,
        commands: Commands<'a>,
    },
    /// Tells that the commands were accepted in the ballot, 1 to 64, the first at the slot and each further one at the slot
    /// behind.
    Accepted {
        ballot: Ballot,
        slot: u32,
        commands: Commands<'a>,
    },
    /// Tells that the command is chosen at the slot.
    Chosen {
        slot: u32,
        command: Command,
    },
    /// Asks for what is chosen from the slot on.
    Ask {
        slot: u32,
    },
    /// Hands on an act, or that a player is away, for the node that leads to propose.
    Forward {
        command: Command,
    },
}
