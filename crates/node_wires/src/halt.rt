/// Why a read or a write did nothing.
#[derive(Clone, Copy, Debug, PartialEq, Eq)]
pub enum Halt {
    /// Nothing is there to read, or no room to write into: later there may be.
    Later,
    /// The connection ended, or there is none.
    Ended,
}
