ghost use Rattle.std.specs.Prelude.{◌≡◌, Some};
ghost use Rattle.match_log.specs.Fault.{code_of, kind_text};

use std::fmt;

/// What is wrong with a line of a log.
#[derive(Clone, Copy, Debug, PartialEq, Eq)]
pub enum LogFaultKind {
    /// The first line is no header.
    BadHeader,
    /// Where a hand's line is due stands no line of any finished hand: another form, a line without its end, no
    /// betting that ends a hand, cards that no deal shows, values that are no whole numbers or not one for each
    /// player, or names that aren't the seats' by position.
    BadState,
    /// A hand's line has another number than the next one, a whole line that begins with `STATE:` stands where
    /// the score is due, or one that begins with `SCORE:` where a hand's line is due.
    WrongNumber,
    /// The values aren't what the hand pays.
    WrongValues,
    /// Where the score is due stands anything else than its whole line, be it other totals or other names, a
    /// line is missing, or something stands behind the score.
    WrongScore,
}

impl LogFaultKind {
    /// The fault's number, 45 to 49.
    pub fn code(self) -> u8
        ensures { result ≡ code_of self }
    {
        match self {
            LogFaultKind::BadHeader => 45,
            LogFaultKind::BadState => 46,
            LogFaultKind::WrongNumber => 47,
            LogFaultKind::WrongValues => 48,
            LogFaultKind::WrongScore => 49,
        }
    }
}

/// Writes the fault's number and its name, as `48 WrongValues`.
impl fmt::Display for LogFaultKind {
    ghost output = { λ kind. Some (kind_text kind) };

    fn fmt<W: fmt::Write>(&self, f: &mut fmt::Formatter<W>) -> fmt::Result {
        match self {
            LogFaultKind::BadHeader => f.write_str("45 BadHeader"),
            LogFaultKind::BadState => f.write_str("46 BadState"),
            LogFaultKind::WrongNumber => f.write_str("47 WrongNumber"),
            LogFaultKind::WrongValues => f.write_str("48 WrongValues"),
            LogFaultKind::WrongScore => f.write_str("49 WrongScore"),
        }
    }
}
