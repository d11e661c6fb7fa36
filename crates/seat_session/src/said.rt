use slot_log::Command;

/// What a seat said by one line.
#[derive(Clone, Copy, Debug, PartialEq, Eq)]
pub enum Said {
    /// The line that names version 2.0 of the protocol: the seat gets its lines from now on.
    Ready,
    /// An action, as the command for the sequential dealer.
    Act(Command),
}
