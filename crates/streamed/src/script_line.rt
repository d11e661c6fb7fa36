use match_log::SeatNames;
use slot_log::Command;

/// What a script line says.
#[derive(Drop)]
pub(crate) enum ScriptLine {
    /// The seats' names, once, before all else.
    Names(SeatNames),
    /// A command to the dealer.
    Told(Command),
    /// Anything else: 110 `BadScript`.
    Bad,
}
