ghost use Rattle.std.specs.Prelude.{◌≡◌, Some};
ghost use Rattle.paxos_wire.specs.Lines.{fault_code, fault_line};

use std::fmt;
use thiserror::Error;

/// Why bytes are no frame.
///
/// It prints as its number and its name.
#[derive(Clone, Copy, Debug, PartialEq, Eq, Error)]
pub enum FrameFault {
    /// 50: fewer than the four bytes of a length, or a length without room for a version and a kind.
    TooShort,
    /// 51: a length above 4096.
    TooLong,
    /// 52: another version.
    BadVersion,
    /// 53: another kind than 1 to 8.
    BadKind,
    /// 54: a value out of its range, or a byte left over or missing.
    BadBody,
}

impl FrameFault {
    /// The fault's number, 50 to 54.
    pub fn code(self) -> u8
        ensures { result ≡ fault_code self }
    {
        match self {
            FrameFault::TooShort => 50,
            FrameFault::TooLong => 51,
            FrameFault::BadVersion => 52,
            FrameFault::BadKind => 53,
            FrameFault::BadBody => 54,
        }
    }
}

impl fmt::Display for FrameFault {
    ghost output = { λ fault. Some (fault_line fault) };

    fn fmt<W: fmt::Write>(&self, f: &mut fmt::Formatter<W>) -> fmt::Result {
        match self {
            FrameFault::TooShort => f.write_str("50 TooShort"),
            FrameFault::TooLong => f.write_str("51 TooLong"),
            FrameFault::BadVersion => f.write_str("52 BadVersion"),
            FrameFault::BadKind => f.write_str("53 BadKind"),
            FrameFault::BadBody => f.write_str("54 BadBody"),
        }
    }
}
