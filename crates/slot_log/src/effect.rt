use crate::reason::Reason;

/// What a command did.
#[derive(Clone, Copy, Debug, PartialEq, Eq)]
pub enum Effect {
    /// A hand was dealt.
    Dealt,
    /// The player to act acted, or was played for, and the hand goes on.
    Acted,
    /// The player to act acted, or was played for, and the hand is over.
    HandOver,
    /// The player to act acted, or was played for, and with the hand the match is over.
    MatchOver,
    /// Nothing, for this reason.
    None(Reason),
}
