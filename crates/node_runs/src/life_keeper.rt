ghost use Rattle.std.specs.Prelude.{ℕ, OnOk};
ghost use Rattle.peer_codes.specs.declared.hello.Life.{Life as OfLife};

use dealer_node::NodeFault;
use peer_codes::Life;

/// Where a node's process keeps the lives of its peers' stores.
pub trait LifeKeeper {
    /// The keeper, where it keeps this life of this peer since.
    ghost kept: { Self → ℕ → OfLife → Self → Type 0 };

    /// Keeps the life that was first seen of a peer's store, so that a later process of the node finds it whatever happens
    /// to the machine. Refused is 91 or 92: then the process can't go on, since it has taken that store for the peer's.
    fn keep(&mut self, peer: u8, life: &Life) -> Result<(), NodeFault>
        ensures { OnOk result (kept self.old peer life.now self.new) };
}
