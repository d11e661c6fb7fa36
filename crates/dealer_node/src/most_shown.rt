ghost use Rattle.std.specs.Prelude.{◌≡◌, ◌+◌, ◌≤◌};
ghost use Rattle.paxos_wire.specs.declared.limits.TheConstants.{SLOTS};
ghost use Rattle.dealer_node.specs.declared.limits.TheConstants.{COMMANDS_OF_A_CALL};
ghost use Rattle.dealer_node.specs.Most.{most_after};

use crate::limits::{TEXT_BYTES_OF_A_COMMAND, TEXTS_OF_A_COMMAND};
use matchstate::MOST_LINE;

/// How much a node's next call shows at most.
#[derive(Clone, Copy, Debug, PartialEq, Eq)]
pub struct MostShown {
    /// How many pieces: lines of seats and what is added to the node's log, together.
    pub pieces: usize,
    /// How many bytes they have in all.
    pub bytes: usize,
}

/// What a call shows at most that applies so many commands: a line of a seat that gets ready, or a log's header, and what
/// these commands show.
pub(crate) fn most_after(applied: usize) -> MostShown
    requires { applied ≤ SLOTS + COMMANDS_OF_A_CALL }
    ensures { result ≡ most_after applied }
{
    MostShown {
        pieces: 1 + TEXTS_OF_A_COMMAND * applied,
        bytes: MOST_LINE + TEXT_BYTES_OF_A_COMMAND * applied,
    }
}
