ghost use Rattle.std.specs.Prelude.{◌≡◌, Some};
ghost use Rattle.peer_codes.specs.Lines.{connection_fault_code, connection_fault_line};

use crate::fault::RecordFault;
use std::fmt;
use thiserror::Error;

/// Why a connection is closed.
///
/// It prints as its number and its name.
#[derive(Clone, Copy, Debug, PartialEq, Eq, Error)]
pub enum ConnectionFault {
    /// 120 to 122: what came is no record.
    Record(RecordFault),
    /// 124: the proof isn't that of a side that has the key and read these two Hellos.
    WrongProof,
    /// 125: the tag isn't that of this record on this way of this connection.
    WrongTag,
    /// 126: a record of another kind than may come now, or one behind the last number.
    UnexpectedRecord,
}

impl ConnectionFault {
    /// The fault's number, 120 to 126.
    pub fn code(self) -> u8
        ensures { result ≡ connection_fault_code self }
    {
        match self {
            ConnectionFault::Record(fault) => fault.code(),
            ConnectionFault::WrongProof => 124,
            ConnectionFault::WrongTag => 125,
            ConnectionFault::UnexpectedRecord => 126,
        }
    }
}

impl fmt::Display for ConnectionFault {
    ghost output = { λ fault. Some (connection_fault_line fault) };

    fn fmt<W: fmt::Write>(&self, f: &mut fmt::Formatter<W>) -> fmt::Result {
        match self {
            ConnectionFault::Record(RecordFault::BadLength) => f.write_str("120 BadLength"),
            ConnectionFault::Record(RecordFault::BadKind) => f.write_str("121 BadKind"),
            ConnectionFault::Record(RecordFault::BadHello) => f.write_str("122 BadHello"),
            ConnectionFault::WrongProof => f.write_str("124 WrongProof"),
            ConnectionFault::WrongTag => f.write_str("125 WrongTag"),
            ConnectionFault::UnexpectedRecord => f.write_str("126 UnexpectedRecord"),
        }
    }
}
