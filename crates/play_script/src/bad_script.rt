ghost use Rattle.std.specs.Prelude.{◌≡◌, Some};
ghost use Rattle.play_script.specs.Shown.{bad_script_text};

use std::fmt;
use thiserror::Error;

/// 110: a line that is none of a script, or a number that names nothing.
#[derive(Clone, Copy, Debug, PartialEq, Eq, Error)]
pub struct BadScript;

impl BadScript {
    /// The fault's number.
    pub fn code(self) -> u8
        ensures { result ≡ 110 }
    {
        110
    }
}

/// Writes the fault's number and its name.
impl fmt::Display for BadScript {
    ghost output = { λ _. Some bad_script_text };

    fn fmt<W: fmt::Write>(&self, f: &mut fmt::Formatter<W>) -> fmt::Result {
        f.write_str("110 BadScript")
    }
}
