ghost use Rattle.std.specs.Prelude.{◌≡◌, Some};
ghost use Rattle.game_def.specs.Fault.{code_of, fault_text};

use crate::fault_kind::FaultKind;
use std::fmt;
use thiserror::Error;

/// Why a text is no game file: the first fault, and the line at which it is told.
///
/// Lines are counted from 1. A fault of a key is told at the key's line, or at the line of
/// `END GAMEDEF` where the key is missing. `NoEnd`, and `NoGamedef` where no line has a word, have the
/// number of lines, which is 0 for the empty text.
#[derive(Clone, Copy, Debug, PartialEq, Eq, Error)]
pub struct GameFault {
    pub kind: FaultKind,
    pub line: usize,
}

impl GameFault {
    /// The fault's number, 10 to 19: that of its kind, so that each fault of the repository has a `code`.
    pub fn code(&self) -> u8
        ensures { result ≡ code_of self.now.kind }
    {
        self.kind.code()
    }
}

/// Writes the fault's number, its name and its line, as `17 StackBelowBlind 5`.
impl fmt::Display for GameFault {
    ghost output = { λ fault. Some (fault_text fault) };

    fn fmt<W: fmt::Write>(&self, f: &mut fmt::Formatter<W>) -> fmt::Result {
        let code = self.code();
        let name = self.kind.name();
        let line = self.line;
        write!(f, "{code} {name} {line}")
    }
}
