ghost use Rattle.std.specs.Prelude.{◌≡◌, Some};
ghost use Rattle.match_runs.specs.Conclusion.{status_of, conclusion_text};

use serving::ServeFault;
use std::fmt;
use streamed::Ending;

/// How the program ends: its exit status, and the last line that standard error gets.
#[derive(Clone, Copy, Debug)]
pub enum Conclusion {
    /// As commands end that serve no match, and `serve` where it ends well or what it is asked for is refused.
    Ended(Ending),
    /// `serve` can't begin, or go on. Status 1.
    Served(ServeFault),
}

impl Conclusion {
    /// The program's exit status.
    pub fn status(self) -> u8
        ensures { result ≡ status_of self }
    {
        match self {
            Conclusion::Ended(ending) => ending.status(),
            Conclusion::Served(_) => 1,
        }
    }
}

impl fmt::Display for Conclusion {
    ghost output = { λ conclusion. Some (conclusion_text conclusion) };

    fn fmt<W: fmt::Write>(&self, f: &mut fmt::Formatter<W>) -> fmt::Result {
        match self {
            Conclusion::Ended(ending) => write!(f, "{ending}"),
            Conclusion::Served(fault) => write!(f, "{fault}"),
        }
    }
}
