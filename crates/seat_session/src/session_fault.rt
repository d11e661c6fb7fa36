ghost use Rattle.std.specs.Prelude.{◌≡◌, Some};
ghost use Rattle.seat_session.specs.Fault.{fault_code, fault_text, closes};

use betting::ActFault;
use matchstate::LineFault;
use std::fmt;
use thiserror::Error;

/// What is wrong with what a seat sent. The first two close the session; after the others it goes on with
/// the next line.
///
/// It prints as its number and its name, and behind them the fault that it holds.
#[derive(Clone, Copy, Debug, PartialEq, Eq, Error)]
pub enum SessionFault {
    /// 80: the first line doesn't name version 2.0 of the protocol.
    BadVersion,
    /// 81: more than 4096 bytes before a line feed.
    LineTooLong,
    /// 82: no server's line of the game with an action's text behind it.
    Malformed(LineFault),
    /// 83: the line that is sent back isn't the one that the seat has now.
    NotCurrent,
    /// 84: another seat is to act, or none.
    NotYourTurn,
    /// 85: an action that betting doesn't allow.
    Illegal(ActFault),
}

impl SessionFault {
    /// The fault's number, 80 to 85.
    pub fn code(self) -> u8
        ensures { result ≡ fault_code self }
    {
        match self {
            SessionFault::BadVersion => 80,
            SessionFault::LineTooLong => 81,
            SessionFault::Malformed(_) => 82,
            SessionFault::NotCurrent => 83,
            SessionFault::NotYourTurn => 84,
            SessionFault::Illegal(_) => 85,
        }
    }

    /// Whether it closes the session.
    pub(crate) fn closes(self) -> bool
        ensures { result ≡ closes self }
    {
        matches!(self, SessionFault::BadVersion | SessionFault::LineTooLong)
    }
}

impl fmt::Display for SessionFault {
    ghost output = { λ fault. Some (fault_text fault) };

    fn fmt<W: fmt::Write>(&self, f: &mut fmt::Formatter<W>) -> fmt::Result {
        match self {
            SessionFault::BadVersion => f.write_str("80 BadVersion"),
            SessionFault::LineTooLong => f.write_str("81 LineTooLong"),
            SessionFault::Malformed(fault) => write!(f, "82 Malformed {fault}"),
            SessionFault::NotCurrent => f.write_str("83 NotCurrent"),
            SessionFault::NotYourTurn => f.write_str("84 NotYourTurn"),
            SessionFault::Illegal(fault) => write!(f, "85 Illegal {fault}"),
        }
    }
}
