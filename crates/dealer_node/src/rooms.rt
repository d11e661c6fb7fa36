use crate::made::Made;
use paxos_wire::{CommandList, MessageRoom};

/// What a node keeps from call to call, so that it isn't made for each: making a list fills each of its places, and room
/// for what a call makes takes memory. What stands in it means nothing.
#[derive(Drop)]
pub(crate) struct Rooms {
    /// Where the lists of a frame stand.
    pub(crate) message: MessageRoom,
    pub(crate) lists: Lists,
    /// Where an earlier call put what it made.
    pub(crate) made: Option<Made>,
}

/// Where lists of commands stand.
#[derive(Drop)]
pub(crate) struct Lists {
    /// Those of a proposal.
    pub(crate) proposed: CommandList,
    /// Those that the store tells.
    pub(crate) told: CommandList,
}

impl Rooms {
    /// Rooms in which nothing stands yet. They take no memory.
    pub(crate) fn new() -> Rooms {
        Rooms {
            message: MessageRoom::new(),
            lists: Lists {
                proposed: CommandList::new(),
                told: CommandList::new(),
            },
            made: None,
        }
    }
}
