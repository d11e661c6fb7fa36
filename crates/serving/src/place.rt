/// Where a seat is; nodes are counted from 0.
#[derive(Clone, Copy, Debug, PartialEq, Eq)]
pub enum Place {
    /// When it is its turn, it is awaited at the first running node from this one on, in cyclic order.
    Awaited(u8),
    /// It has a connection to this node.
    Seated(u8),
    /// Its connection to this node ended or failed, or its session there was closed: it is to be dropped.
    Leaving(u8),
    /// It was dropped and is played for, to the end: when it is its turn, that is ordered at the first running node from this
    /// one on, in cyclic order.
    Played(u8),
}

impl Default for Place {
    /// Awaited at node 0, as every seat is at first.
    fn default() -> Place {
        Place::Awaited(0)
    }
}
