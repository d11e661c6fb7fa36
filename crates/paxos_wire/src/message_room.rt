use crate::command_list::CommandList;
use crate::entries::Entries;

/// Where the lists of a message stand that is read. It is made once, and each message that is read into it takes the
/// place of the one before: making it fills each of its places.
#[derive(Debug, Drop)]
pub struct MessageRoom {
    pub(crate) commands: CommandList,
    pub(crate) entries: Entries,
}

impl MessageRoom {
    /// A room in which no message was read.
    pub fn new() -> MessageRoom {
        MessageRoom {
            commands: CommandList::new(),
            entries: Entries::new(),
        }
    }
}
