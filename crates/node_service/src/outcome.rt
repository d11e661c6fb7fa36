use dealer_node::NodeFault;

/// What a turn leaves to do.
#[derive(Clone, Copy, Debug, PartialEq, Eq)]
pub enum Outcome {
    /// The next turn.
    GoesOn,
    /// The match is over here, and all peers know it or are gone: the process ends with status 0.
    Over,
    /// The node's store is another than the one that its peers know: status 2.
    StoreReplaced,
    /// The node's store is an older copy of the one that a peer knows: it promises less than it had promised. Status 2.
    StoreOlder,
    /// The node can't go on after this fault, 91 or 95, or at its start another: status 3, and 1 by 92.
    Failed(NodeFault),
    /// The log can't be written: status 1.
    LogFailed,
}
