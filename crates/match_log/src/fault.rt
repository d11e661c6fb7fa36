ghost use Rattle.std.specs.Prelude.{◌≡◌, Some};
ghost use Rattle.match_log.specs.Fault.{code_of, fault_text};

use crate::fault_kind::LogFaultKind;
use std::fmt;
use thiserror::Error;

/// Why a text is no whole log of a match: what is wrong with the first line at fault, and which line that is,
/// counted from 1.
#[derive(Clone, Copy, Debug, PartialEq, Eq, Error)]
pub struct LogFault {
    pub kind: LogFaultKind,
    pub line: usize,
}

impl LogFault {
    /// The fault's number, 45 to 49: that of its kind, so that each fault of the repository has a `code`.
    pub fn code(&self) -> u8
        ensures { result ≡ code_of self.now.kind }
    {
        self.kind.code()
    }
}

/// Writes the fault's number, its name and its line, as `48 WrongValues 2`.
impl fmt::Display for LogFault {
    ghost output = { λ fault. Some (fault_text fault) };

    fn fmt<W: fmt::Write>(&self, f: &mut fmt::Formatter<W>) -> fmt::Result {
        let kind = self.kind;
        let line = self.line;
        write!(f, "{kind} {line}")
    }
}
