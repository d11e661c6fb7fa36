ghost use Rattle.std.specs.Prelude.{◌≡◌, ◌⊎◌};
ghost use Rattle.match_runs.specs.Conclusion.{IsOfServe, conclusion_of, no_memory};
ghost use Rattle.match_runs.specs.declared.unserved.Unserved.TheVariants.{Match, Unreadable, Fault};

use crate::conclusion::Conclusion;
use dealer_node::NodeFault;
use match_file::{Difference, MatchFault};
use serving::ServeFault;
use std::alloc::AllocError;
use std::io;
use streamed::Ending;

/// Why a match isn't served, or not to its end.
#[derive(Clone, Copy, Debug)]
pub enum Unserved {
    /// The match file or its game is refused.
    Match(MatchFault),
    /// 104: the match file, its game or a store can't be read.
    Unreadable,
    /// 108: a store is in use.
    StoreInUse,
    /// 109: the stores are of another match, or of no match that can be told.
    OtherMatch(Difference),
    /// The server can't begin, or go on.
    Fault(ServeFault),
}

impl Unserved {
    /// Why it isn't served where a file can't be read: 92 where memory was refused, else 104.
    pub fn unread(error: &io::Error) -> Unserved
        ensures { (result ≡ Unreadable) ⊎ (result ≡ no_memory) }
    {
        if error.kind() == io::ErrorKind::OutOfMemory {
            Unserved::from(AllocError)
        } else {
            Unserved::Unreadable
        }
    }

    /// How the program ends by it. Want of memory is always the server's fault, with status 1.
    pub fn conclusion(self) -> Conclusion
        ensures same { result ≡ conclusion_of self }
        ensures of_serve { IsOfServe result }
    {
        match self {
            Unserved::Match(MatchFault::OutOfMemory) => {
                Conclusion::Served(ServeFault::Node(NodeFault::OutOfMemory))
            }
            Unserved::Match(fault) => Conclusion::Ended(Ending::Match(fault)),
            Unserved::Unreadable => Conclusion::Ended(Ending::Unreadable),
            Unserved::StoreInUse => Conclusion::Ended(Ending::StoreInUse),
            Unserved::OtherMatch(difference) => Conclusion::Ended(Ending::OtherMatch(difference)),
            Unserved::Fault(fault) => Conclusion::Served(fault),
        }
    }
}

impl From<MatchFault> for Unserved {
    ghost from_gives = { λ fault why. why ≡ Match fault };

    fn from(fault: MatchFault) -> Unserved {
        Unserved::Match(fault)
    }
}

impl From<ServeFault> for Unserved {
    ghost from_gives = { λ fault why. why ≡ Fault fault };

    fn from(fault: ServeFault) -> Unserved {
        Unserved::Fault(fault)
    }
}

impl From<AllocError> for Unserved {
    ghost from_gives = { λ _ why. why ≡ no_memory };

    fn from(_: AllocError) -> Unserved {
        Unserved::Fault(ServeFault::Node(NodeFault::OutOfMemory))
    }
}
