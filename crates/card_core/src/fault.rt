ghost use Rattle.std.specs.Prelude.{◌≡◌, Some};
ghost use Rattle.card_core.specs.Fault.{fault_code, fault_text};

use std::fmt;
use thiserror::Error;

/// Why cards are no deal.
///
/// It prints as its number and its name.
#[derive(Clone, Copy, Debug, PartialEq, Eq, Error)]
pub enum DealFault {
    /// 1: not two cards for each player and five for the board.
    WrongCount,
    /// 2: a card stands there twice.
    Repeated,
}

impl DealFault {
    /// The fault's number.
    pub fn code(self) -> u8
        ensures { result ≡ fault_code self }
    {
        match self {
            DealFault::WrongCount => 1,
            DealFault::Repeated => 2,
        }
    }
}

impl fmt::Display for DealFault {
    ghost output = { λ fault. Some (fault_text fault) };

    fn fmt<W: fmt::Write>(&self, f: &mut fmt::Formatter<W>) -> fmt::Result {
        match self {
            DealFault::WrongCount => f.write_str("1 WrongCount"),
            DealFault::Repeated => f.write_str("2 Repeated"),
        }
    }
}
