/// How far a peer is behind this node, and how slow it is.
#[derive(Clone, Copy, Debug, PartialEq, Eq)]
pub struct Lag {
    /// How many slots the front of its last beat is behind this node's; 0 where it isn't behind.
    pub behind: u32,
    /// The longest that was measured of it in the last minute (`View::measured`), in whole microseconds; 0 where nothing was.
    pub slowest: u64,
}
