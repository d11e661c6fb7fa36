use match_log::LogFault;
use std::alloc::AllocError;

/// Why there are no lines.
#[derive(Clone, Copy, Debug)]
pub enum LuckFault {
    /// The log is not that of a match of the game which is over: its first line at fault.
    Log(LogFault),
    /// 92: memory was refused.
    OutOfMemory,
}

impl From<AllocError> for LuckFault {
    ghost use Rattle.std.specs.Prelude.{◌≡◌};
    ghost use Rattle.luck.specs.declared.fault.LuckFault.TheVariants.{OutOfMemory};

    ghost from_gives = { λ _ fault. fault ≡ OutOfMemory };

    fn from(_: AllocError) -> LuckFault {
        LuckFault::OutOfMemory
    }
}
