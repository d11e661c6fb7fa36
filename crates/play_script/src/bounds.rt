/// What there is that a line may name; all are counted from 0.
#[derive(Clone, Copy, Debug, PartialEq, Eq)]
pub struct Bounds {
    /// How many nodes there are.
    pub nodes: usize,
    /// How many seats a table has.
    pub seats: usize,
    /// How many frames were sent so far.
    pub frames: u64,
}
