ghost use Rattle.std.specs.Prelude.{◌≡◌, IsTrue, is_some};
ghost use Rattle.node_rules.specs.Standings.{Standing, front_of};
ghost use Rattle.dealer_node.specs.Members.{Membership};
ghost use Rattle.dealer_node.specs.Seeing.{promised_ballot};
ghost use Rattle.dealer_node.specs.Working.{IsUp};

use crate::running::Running;
use acceptor::Acceptor;
use paxos_wire::Ballot;
use promise_store::Disk;

/// What a node has while it runs: its acceptor, over its disk, and what it holds in memory.
///
/// Each method carries out a rule, or a part of one, into room that was made beforehand. Where the rule stores something
/// that is the one append of the call. After 91 and 95 the node is to go down.
#[derive(Drop)]
pub(crate) struct Up<D: Disk> {
    pub(crate) acceptor: Acceptor<D>,
    pub(crate) running: Running,
}

/// A ballot that was promised: none is of round 0.
fn promised_ballot(ballot: Ballot) -> Option<Ballot>
    ensures { result ≡ promised_ballot ballot }
{
    if ballot.round == 0 {
        None
    } else {
        Some(ballot)
    }
}

impl<D: Disk + Drop> Up<D> {
    /// The ballot that its store has promised; none before the first.
    pub(crate) fn promised(&self) -> Option<Ballot>
        ensures { (member : Membership) (s : Standing) → IsTrue D.is_honest → IsUp D.Disk member self.now s → result ≡ promised_ballot s.store.promise }
    {
        promised_ballot(self.acceptor.promised())
    }

    /// Whether its store has a vote at the front.
    pub(crate) fn vote_waits(&self) -> bool
        ensures { (member : Membership) (s : Standing) → IsTrue D.is_honest → IsUp D.Disk member self.now s → result ≡ is_some (s.store.votes (front_of s)) }
    {
        let front = self.running.front();
        self.acceptor.store().held().find(front).is_some()
    }
}
