ghost use Rattle.std.specs.Prelude.{◌≡◌, ◌⊎◌, Some};
ghost use Rattle.streamed.specs.Ending.{status_of, ending_text, stopped};
ghost use Rattle.streamed.specs.declared.ending.Ending.TheVariants.{Match, OutOfMemory, Unreadable};

use crate::wrong_words::WrongWords;
use game_def::GameFault;
use match_file::{Difference, MatchFault};
use match_log::LogFault;
use operator_notes::Stop;
use promise_store::StoreFault;
use std::alloc::AllocError;
use std::{fmt, io};

/// How a run of the program ends: its exit status, and what standard error gets. All commands but `serve` end in
/// one of these ways, and `serve` in some of them.
#[derive(Clone, Copy, Debug)]
pub enum Ending {
    /// All was done; of `check`: the log is that of a match of the game which is over. Status 0.
    Done,
    /// `check` said no: the log's first line at fault. Status 1, as the others are status 2.
    SaidNo(LogFault),
    /// The game file is refused.
    Refused(GameFault),
    /// The match file is refused.
    Match(MatchFault),
    /// 103: a store file is there already.
    StoreExists,
    /// A store can't be made.
    Store(StoreFault),
    /// 108: a store is in use.
    StoreInUse,
    /// 109: the stores are of another match, or of no match that can be told.
    OtherMatch(Difference),
    /// 104: a file can't be read.
    Unreadable,
    /// 92: memory was refused.
    OutOfMemory,
    /// 107: what is read couldn't be read, or what is written couldn't be written.
    StreamFailed,
    /// The command line is wrong.
    WrongWords(WrongWords),
}

impl Ending {
    /// The ending where a file can't be read: `OutOfMemory` (92) where memory was refused, else `Unreadable` (104).
    pub fn unread(error: &io::Error) -> Ending
        ensures { (result ≡ Unreadable) ⊎ (result ≡ OutOfMemory) }
    {
        if error.kind() == io::ErrorKind::OutOfMemory {
            Ending::OutOfMemory
        } else {
            Ending::Unreadable
        }
    }

    /// The program's exit status.
    pub fn status(self) -> u8
        ensures { result ≡ status_of self }
    {
        match self {
            Ending::Done => 0,
            Ending::SaidNo(_) => 1,
            _ => 2,
        }
    }
}

/// Writes what standard error gets: nothing with status 0 or 1.
impl fmt::Display for Ending {
    ghost output = { λ ending. Some (ending_text ending) };

    fn fmt<W: fmt::Write>(&self, f: &mut fmt::Formatter<W>) -> fmt::Result {
        match self {
            Ending::Done | Ending::SaidNo(_) => Ok(()),
            Ending::Refused(fault) => write!(f, "{fault}"),
            Ending::Match(fault) => write!(f, "{fault}"),
            Ending::StoreExists => f.write_str("103 StoreExists"),
            Ending::Store(fault) => write!(f, "{fault}"),
            Ending::StoreInUse => f.write_str("108 StoreInUse"),
            Ending::OtherMatch(difference) => write!(f, "109 OtherMatch {difference}"),
            Ending::Unreadable => f.write_str("104 Unreadable"),
            Ending::OutOfMemory => f.write_str("92 OutOfMemory"),
            Ending::StreamFailed => f.write_str("107 StreamFailed"),
            Ending::WrongWords(words) => f.write_str(words.text()),
        }
    }
}

impl From<MatchFault> for Ending {
    ghost from_gives = { λ fault ending. ending ≡ Match fault };

    fn from(fault: MatchFault) -> Ending {
        Ending::Match(fault)
    }
}

impl From<Stop> for Ending {
    ghost from_gives = { λ stop ending. ending ≡ stopped stop };

    fn from(stop: Stop) -> Ending {
        match stop {
            Stop::OutOfMemory => Ending::OutOfMemory,
            Stop::StreamFailed => Ending::StreamFailed,
        }
    }
}

impl From<AllocError> for Ending {
    ghost from_gives = { λ _ ending. ending ≡ OutOfMemory };

    fn from(_: AllocError) -> Ending {
        Ending::OutOfMemory
    }
}
