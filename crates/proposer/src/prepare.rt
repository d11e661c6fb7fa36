use paxos_wire::Ballot;

/// What a proposer begins a ballot with: it asks for promises to take no lower ballot, and for what was accepted at
/// the 64 slots from the slot on.
#[derive(Clone, Copy, Debug, PartialEq, Eq)]
pub struct Prepare {
    /// The new ballot.
    pub ballot: Ballot,
    /// Counted from 0.
    pub slot: u32,
}
