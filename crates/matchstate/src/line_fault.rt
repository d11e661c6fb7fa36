ghost use Rattle.std.specs.Prelude.{◌≡◌, Some};
ghost use Rattle.matchstate.specs.Fault.{fault_code, fault_text};

use std::fmt;
use thiserror::Error;

/// Why a text is no server's line or no player's answer in a game. It prints as its number and its name.
#[derive(Clone, Copy, Debug, PartialEq, Eq, Error)]
pub enum LineFault {
    /// 40: not the word `MATCHSTATE` and four fields.
    NotMatchstate,
    /// 41: a position that the game hasn't, a hand above 9999, or no decimal without leading zeros.
    BadNumber,
    /// 42: not the betting text of a legal play.
    BadBetting,
    /// 43: not the cards that a viewer at that position sees of any deal.
    BadCards,
    /// 44: not the text of an action.
    BadAction,
}

impl LineFault {
    /// The fault's number.
    pub fn code(self) -> u8
        ensures { result ≡ fault_code self }
    {
        match self {
            LineFault::NotMatchstate => 40,
            LineFault::BadNumber => 41,
            LineFault::BadBetting => 42,
            LineFault::BadCards => 43,
            LineFault::BadAction => 44,
        }
    }
}

impl fmt::Display for LineFault {
    ghost output = { λ fault. Some (fault_text fault) };

    fn fmt<W: fmt::Write>(&self, f: &mut fmt::Formatter<W>) -> fmt::Result {
        match self {
            LineFault::NotMatchstate => f.write_str("40 NotMatchstate"),
            LineFault::BadNumber => f.write_str("41 BadNumber"),
            LineFault::BadBetting => f.write_str("42 BadBetting"),
            LineFault::BadCards => f.write_str("43 BadCards"),
            LineFault::BadAction => f.write_str("44 BadAction"),
        }
    }
}
