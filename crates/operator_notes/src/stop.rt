ghost use Rattle.std.specs.Prelude.{◌≡◌};
ghost use Rattle.operator_notes.specs.declared.stop.Stop.TheVariants.{OutOfMemory};

use std::alloc::AllocError;

/// Why a run of a script stops before its end.
#[derive(Clone, Copy, Debug)]
pub enum Stop {
    /// Memory was refused.
    OutOfMemory,
    /// The reader or the writer failed, or the script was read too often.
    StreamFailed,
}

impl From<AllocError> for Stop {
    ghost from_gives = { λ _ stop. stop ≡ OutOfMemory };

    fn from(_: AllocError) -> Stop {
        Stop::OutOfMemory
    }
}
