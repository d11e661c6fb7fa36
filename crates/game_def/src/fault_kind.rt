ghost use Rattle.std.specs.Prelude.{◌≡◌};
ghost use Rattle.game_def.specs.Fault.{code_of, fault_at, name_of};

use crate::fault::GameFault;

/// What is wrong with a game file.
#[derive(Clone, Copy, Debug, PartialEq, Eq)]
pub enum FaultKind {
    /// The first line that has a word isn't `GAMEDEF`, or no line has a word.
    NoGamedef,
    /// No line is `END GAMEDEF`.
    NoEnd,
    /// A line begins with no key.
    UnknownKey,
    /// What stands behind a key is no number of one to ten digits, or not one that the key may have.
    BadNumber,
    /// A line or a game has too few or too many values of a key.
    WrongCount,
    /// A required key is missing, or no such game is dealt here.
    Unsupported,
    /// No player posts a blind.
    NoBlind,
    /// A stack isn't above the greatest blind.
    StackBelowBlind,
    /// A limit game has no raise sizes, or one that is zero.
    NoRaiseSize,
    /// A key stands there twice.
    RepeatedKey,
}

impl FaultKind {
    /// The fault told at a line.
    pub(crate) fn at(self, line: usize) -> GameFault
        ensures { result ≡ fault_at line self }
    {
        GameFault { kind: self, line }
    }

    /// The fault's number, 10 to 19.
    pub fn code(self) -> u8
        ensures { result ≡ code_of self }
    {
        match self {
            FaultKind::NoGamedef => 10,
            FaultKind::NoEnd => 11,
            FaultKind::UnknownKey => 12,
            FaultKind::BadNumber => 13,
            FaultKind::WrongCount => 14,
            FaultKind::Unsupported => 15,
            FaultKind::NoBlind => 16,
            FaultKind::StackBelowBlind => 17,
            FaultKind::NoRaiseSize => 18,
            FaultKind::RepeatedKey => 19,
        }
    }

    /// The fault's name.
    pub fn name(self) -> &'static str
        ensures { result.now ≡ name_of self }
    {
        match self {
            FaultKind::NoGamedef => "NoGamedef",
            FaultKind::NoEnd => "NoEnd",
            FaultKind::UnknownKey => "UnknownKey",
            FaultKind::BadNumber => "BadNumber",
            FaultKind::WrongCount => "WrongCount",
            FaultKind::Unsupported => "Unsupported",
            FaultKind::NoBlind => "NoBlind",
            FaultKind::StackBelowBlind => "StackBelowBlind",
            FaultKind::NoRaiseSize => "NoRaiseSize",
            FaultKind::RepeatedKey => "RepeatedKey",
        }
    }
}
