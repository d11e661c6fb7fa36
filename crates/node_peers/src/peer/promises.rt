//! What a peer is known to have promised, and what it is told of that.

ghost use Rattle.std.specs.Prelude.{◌≡◌};
ghost use Rattle.node_links.specs.Promising.{higher};
ghost use Rattle.node_peers.specs.Handing.{GoesBack};
ghost use Rattle.node_peers.specs.Showing.{tells_older, older_than, had_shown};

use super::Peer;
use node_links::promises_less;
use paxos_wire::Ballot;

impl Peer {
    /// The peer shows that it promised this, at this moment.
    #[tactic(auto, using(crate::proofs::Handing::goes_risen))]
    pub(crate) fn note_promise(&mut self, promised: Option<Ballot>, now: u64)
        ensures goes { GoesBack self.old self.new }
        ensures promised { self.new.promised ≡ higher self.old.promised promised }
        ensures others { self.new ≡ record self.old { promised = self.new.promised; rose = self.new.rose } }
    {
        if promises_less(self.promised, promised) {
            self.promised = promised;
            self.rose = now;
        }
    }

    /// What the peer is known to have promised, where its Hello promises less.
    pub(crate) fn older_than(&self, promised: Option<Ballot>) -> Option<Ballot>
        ensures { result ≡ older_than self.now.promised promised }
    {
        if promises_less(promised, self.promised) {
            self.promised
        } else {
            None
        }
    }

    /// Where the peer's Hello promises less than it is known to have promised, that waits for it.
    #[tactic(auto, using(crate::proofs::Handing::goes_same))]
    pub(super) fn tell_older(&mut self, promised: Option<Ballot>)
        ensures goes { GoesBack self.old self.new }
        ensures tells { self.new ≡ record self.old { outbox = tells_older self.old.promised promised self.old.outbox } }
    {
        if let Some(ballot) = self.older_than(promised) {
            self.outbox.tell_promised(ballot);
        }
    }

    /// Whether the peer was gone before this moment, and all that it is known to have promised was shown more than so long before it.
    pub(crate) fn had_shown(&self, age: u64, began: u64) -> bool
        ensures { result ≡ had_shown self.now age began }
    {
        self.open.is_none() && self.since < began && began.saturating_sub(self.rose) > age
    }
}
