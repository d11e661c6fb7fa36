ghost use Rattle.std.specs.Prelude.{◌≡◌, Some};
ghost use Rattle.peer_codes.specs.Lines.{record_fault_code, record_fault_line};

use std::fmt;
use thiserror::Error;

/// Why bytes are no record.
///
/// It prints as its number and its name.
#[derive(Clone, Copy, Debug, PartialEq, Eq, Error)]
pub enum RecordFault {
    /// 120: a length of 0 or above 4133, or one that no record of its kind has.
    BadLength,
    /// 121: a kind that there isn't, or that may not come on this connection, or a beat with other flags than those that
    /// there are.
    BadKind,
    /// 122: no Hello of this kind of connection, or a value in it out of its range.
    BadHello,
}

impl RecordFault {
    /// The fault's number, 120 to 122.
    pub fn code(self) -> u8
        ensures { result ≡ record_fault_code self }
    {
        match self {
            RecordFault::BadLength => 120,
            RecordFault::BadKind => 121,
            RecordFault::BadHello => 122,
        }
    }
}

impl fmt::Display for RecordFault {
    ghost output = { λ fault. Some (record_fault_line fault) };

    fn fmt<W: fmt::Write>(&self, f: &mut fmt::Formatter<W>) -> fmt::Result {
        match self {
            RecordFault::BadLength => f.write_str("120 BadLength"),
            RecordFault::BadKind => f.write_str("121 BadKind"),
            RecordFault::BadHello => f.write_str("122 BadHello"),
        }
    }
}
