/// What a player does in turn.
#[derive(Clone, Copy, Debug, PartialEq, Eq)]
pub enum Action {
    /// Gives the hand up.
    Fold,
    /// Puts in as much as anyone has, or all that he has.
    Call,
    /// Raises to this amount, in whole chips over the whole hand.
    Raise(u32),
}
