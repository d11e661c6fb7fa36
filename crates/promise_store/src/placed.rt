use paxos_wire::Ballot;

/// Where an accepted command stands in its journal.
#[derive(Clone, Copy, Debug, PartialEq, Eq)]
pub struct Placed {
    /// Where its record's payload begins, in bytes from the journal's start.
    pub place: usize,
    /// The ballot that it was accepted in.
    pub ballot: Ballot,
    /// Counted from 0.
    pub slot: u32,
    /// How many bytes its record's payload has.
    pub length: u16,
    /// Where in the payload the command begins.
    pub inside: u16,
}
