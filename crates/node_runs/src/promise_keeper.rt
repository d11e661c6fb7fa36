use paxos_wire::Ballot;

/// Where a node's process keeps what its peers' stores are known to have promised.
pub trait PromiseKeeper {
    /// Keeps that a peer's store promised this ballot, so that a later process of the node finds it. It says whether it is kept.
    /// Where it isn't, less is known later than could be, and nothing else is amiss: no disk need have it before it returns.
    fn keep(&mut self, peer: u8, ballot: Ballot) -> bool;
}
