//! Which records may stand next in a journal.

ghost use Rattle.std.specs.Prelude.{◌≡◌, nat_lt};
ghost use Rattle.promise_store.specs.Stages.{stage_after, old_where};

use crate::records::Record;
use paxos_wire::Ballot;
use paxos_wire::limits::OLD_NODES;

/// Which records may stand next in a journal: those of version 1, up to the one that opens it for version 2, or those of
/// version 2.
#[derive(Clone, Copy)]
pub enum Stage {
    /// Promises and accepts of one command, of nodes 0 to 4.
    Old,
    /// Promises and accepts of runs.
    New,
}

impl Stage {
    /// The stage behind a record; `None` where it may not stand in this one.
    pub fn after(self, addition: &Record<'_>) -> Option<Stage>
        ensures { result ≡ stage_after self addition.now }
    {
        match self {
            Stage::Old => Stage::after_old(addition),
            Stage::New => match addition {
                Record::Promised(_) | Record::Voted { .. } => Some(Stage::New),
                Record::VotedOne { .. } | Record::Opened => None,
            },
        }
    }

    /// The same in the old stage.
    fn after_old(addition: &Record<'_>) -> Option<Stage>
        ensures { result ≡ stage_after Stage.Old addition.now }
    {
        match addition {
            Record::Promised(ballot) | Record::VotedOne { ballot, .. } => Stage::old_of(*ballot),
            Record::Opened => Some(Stage::New),
            Record::Voted { .. } => None,
        }
    }

    /// The old stage, where it has the ballot's node.
    fn old_of(ballot: Ballot) -> Option<Stage>
        ensures { result ≡ old_where (nat_lt ballot.node OLD_NODES) }
    {
        if ballot.node < OLD_NODES {
            Some(Stage::Old)
        } else {
            None
        }
    }
}
