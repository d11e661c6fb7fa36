/// What a turn of the server did. Nodes, seats and frames are counted from 0.
#[derive(Clone, Copy, Debug, PartialEq, Eq)]
pub enum Turn {
    /// A connection of the seat was accepted at the node.
    Seated { seat: u8, node: u8 },
    /// The frame of this number was delivered; where its node is down, it was lost.
    Delivered(usize),
    /// The node was stopped, and the connections of its seats were closed.
    Stopped(u8),
    /// The node was started.
    Started(u8),
    /// The node ticked.
    Ticked(u8),
    /// A line of the seat, or what it had sent at its connection's end, was handed on.
    Read(u8),
    /// The seat was dropped: its connection ended or failed, or its session was closed.
    Gone(u8),
    /// It was ordered at the node that the seat, which is to act there, is played for.
    Away { seat: u8, node: u8 },
    /// The seat that is awaited at the node, or read from there, has sent nothing for five seconds: nothing was done, and
    /// the same turn comes again.
    Waits { seat: u8, node: u8 },
    /// The match is over at every running node; nothing was done.
    Over,
}
