ghost use Rattle.std.specs.Prelude.{◌≡◌, Some, codes};

use std::fmt;
use thiserror::Error;

/// Why no ballot was begun: the greatest ballot seen is of round 4294967295, and none is above it.
///
/// It prints as its number, 70, and its name.
#[derive(Clone, Copy, Debug, PartialEq, Eq, Error)]
pub struct BallotsSpent;

impl BallotsSpent {
    /// The fault's number, 70.
    pub fn code(self) -> u8
        ensures { result ≡ 70 }
    {
        70
    }
}

impl fmt::Display for BallotsSpent {
    ghost output = { λ fault. Some (codes "70 BallotsSpent") };

    fn fmt<W: fmt::Write>(&self, f: &mut fmt::Formatter<W>) -> fmt::Result {
        f.write_str("70 BallotsSpent")
    }
}

/// Why nothing may be proposed at a slot.
///
/// It prints as its number and its name.
#[derive(Clone, Copy, Debug, PartialEq, Eq, Error)]
pub enum ProposeFault {
    /// 71: the slot isn't one of the 64 that the ballot's Prepare covers.
    OutOfWindow,
}

impl ProposeFault {
    /// The fault's number, 71.
    pub fn code(self) -> u8
        ensures { result ≡ 71 }
    {
        match self {
            ProposeFault::OutOfWindow => 71,
        }
    }
}

impl fmt::Display for ProposeFault {
    ghost output = { λ fault. Some (codes "71 OutOfWindow") };

    fn fmt<W: fmt::Write>(&self, f: &mut fmt::Formatter<W>) -> fmt::Result {
        match self {
            ProposeFault::OutOfWindow => f.write_str("71 OutOfWindow"),
        }
    }
}
