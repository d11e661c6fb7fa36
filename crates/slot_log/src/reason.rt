use betting::ActFault;

/// Why a command does nothing.
#[derive(Clone, Copy, Debug, PartialEq, Eq)]
pub enum Reason {
    /// All hands of the match are finished.
    MatchDone,
    /// An act, or what plays for a player who is away, where no hand runs.
    NoHand,
    /// A deal while a hand runs.
    HandRunning,
    /// Another hand than the next one to deal, or than the one that runs.
    WrongHand,
    /// An act, or what plays for one, that isn't the next one of its hand.
    WrongIndex,
    /// A deal for another number of players.
    WrongCards,
    /// An action that betting doesn't allow.
    Illegal(ActFault),
}
