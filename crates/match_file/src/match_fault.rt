ghost use Rattle.std.specs.Prelude.{◌≡◌, Some};
ghost use Rattle.match_file.specs.Fault.{code_of, fault_text};
ghost use Rattle.match_file.specs.declared.match_fault.MatchFault.TheVariants.{OutOfMemory};

use crate::key::Key;
use game_def::GameFault;
use std::alloc::{AllocError, AllocFailed};
use std::fmt;
use thiserror::Error;

/// Why a match file is refused.
#[derive(Clone, Copy, Debug, PartialEq, Eq, Error)]
pub enum MatchFault {
    /// 100: the file isn't UTF-8 or isn't TOML.
    NotToml,
    /// 101: the key is missing, or what it has is of a wrong type or out of range.
    BadEntry(Key),
    /// 102: the game file is refused.
    Game(GameFault),
    /// 104: the game file can't be read.
    Unreadable,
    /// 92: memory was refused.
    OutOfMemory,
}

impl MatchFault {
    /// The fault's number.
    pub fn code(self) -> u8
        ensures { result ≡ code_of self }
    {
        match self {
            MatchFault::NotToml => 100,
            MatchFault::BadEntry(_) => 101,
            MatchFault::Game(_) => 102,
            MatchFault::Unreadable => 104,
            MatchFault::OutOfMemory => 92,
        }
    }
}

/// Writes the fault's number and name and what belongs to it, as `101 BadEntry node` or
/// `102 Game 17 StackBelowBlind 5`.
impl fmt::Display for MatchFault {
    ghost output = { λ fault. Some (fault_text fault) };

    fn fmt<W: fmt::Write>(&self, f: &mut fmt::Formatter<W>) -> fmt::Result {
        match self {
            MatchFault::NotToml => f.write_str("100 NotToml"),
            MatchFault::BadEntry(key) => {
                let text = key.text();
                write!(f, "101 BadEntry {text}")
            }
            MatchFault::Game(fault) => write!(f, "102 Game {fault}"),
            MatchFault::Unreadable => f.write_str("104 Unreadable"),
            MatchFault::OutOfMemory => f.write_str("92 OutOfMemory"),
        }
    }
}

impl From<AllocError> for MatchFault {
    ghost from_gives = { λ _ fault. fault ≡ OutOfMemory };

    fn from(_: AllocError) -> MatchFault {
        MatchFault::OutOfMemory
    }
}

impl<T: Drop> From<AllocFailed<T>> for MatchFault {
    ghost from_gives = { λ _ fault. fault ≡ OutOfMemory };

    fn from(_: AllocFailed<T>) -> MatchFault {
        MatchFault::OutOfMemory
    }
}
