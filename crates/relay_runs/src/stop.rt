ghost use Rattle.std.specs.Prelude.{◌≡◌};

use crate::relay_end::RelayEnd;
use std::alloc::AllocError;

/// Why a relay stops amid its work.
#[derive(Clone, Copy, Debug, PartialEq, Eq)]
pub(crate) enum Stop {
    /// The bot ended its connection.
    BotLeft,
    /// The bot named no version 2.0 of the protocol.
    WrongVersion,
    /// Memory was refused.
    OutOfMemory,
}

impl Stop {
    /// As the relay's end.
    pub(crate) fn end(self) -> RelayEnd
        ensures { result ≡ RelayEnd.Over → ⊥ }
    {
        match self {
            Stop::BotLeft => RelayEnd::BotLeft,
            Stop::WrongVersion => RelayEnd::WrongVersion,
            Stop::OutOfMemory => RelayEnd::OutOfMemory,
        }
    }
}

impl From<AllocError> for Stop {
    fn from(_: AllocError) -> Stop {
        Stop::OutOfMemory
    }
}
