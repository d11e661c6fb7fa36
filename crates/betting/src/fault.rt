ghost use Rattle.std.specs.Prelude.{◌≡◌, Some};
ghost use Rattle.betting.specs.Fault.{fault_code, fault_text};

use std::fmt;
use thiserror::Error;

/// Why an action isn't allowed. The play is left as it was.
///
/// It prints as its number and its name, and the amount where it has one.
#[derive(Clone, Copy, Debug, PartialEq, Eq, Error)]
pub enum ActFault {
    /// 20: the hand is over.
    Finished,
    /// 21: a fold where nothing is faced.
    FoldNotFacing,
    /// 22: the round has had its most raises.
    TooManyRaises,
    /// 23: fewer than two players are in the hand with chips left.
    NobodyToCall,
    /// 24: a raise below this least amount, in chips over the whole hand.
    RaiseTooSmall(u32),
    /// 25: a raise above this greatest amount, in chips over the whole hand; or any raise of a player whose
    /// stack, given here, isn't above the greatest amount in.
    RaiseTooLarge(u32),
    /// 26: the round's 64 actions leave no room for a raise and an answer of each other player.
    RoundFull,
}

impl ActFault {
    /// The fault's number, 20 to 26.
    pub fn code(self) -> u8
        ensures { result ≡ fault_code self }
    {
        match self {
            ActFault::Finished => 20,
            ActFault::FoldNotFacing => 21,
            ActFault::TooManyRaises => 22,
            ActFault::NobodyToCall => 23,
            ActFault::RaiseTooSmall(_) => 24,
            ActFault::RaiseTooLarge(_) => 25,
            ActFault::RoundFull => 26,
        }
    }
}

impl fmt::Display for ActFault {
    ghost output = { λ fault. Some (fault_text fault) };

    fn fmt<W: fmt::Write>(&self, f: &mut fmt::Formatter<W>) -> fmt::Result {
        match self {
            ActFault::Finished => f.write_str("20 Finished"),
            ActFault::FoldNotFacing => f.write_str("21 FoldNotFacing"),
            ActFault::TooManyRaises => f.write_str("22 TooManyRaises"),
            ActFault::NobodyToCall => f.write_str("23 NobodyToCall"),
            ActFault::RaiseTooSmall(least) => write!(f, "24 RaiseTooSmall {least}"),
            ActFault::RaiseTooLarge(greatest) => write!(f, "25 RaiseTooLarge {greatest}"),
            ActFault::RoundFull => f.write_str("26 RoundFull"),
        }
    }
}
