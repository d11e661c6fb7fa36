use slot_log::Command;

/// What a learner tells once more than half of the nodes accepted a command at a slot in one ballot.
#[derive(Clone, Copy, Debug, PartialEq, Eq)]
pub struct Chosen {
    /// Counted from 0.
    pub slot: u32,
    /// What was chosen there.
    pub command: Command,
}
