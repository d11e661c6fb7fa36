use crate::cursor::Cursor;

/// What a line that a seat names is to a match.
#[derive(Clone, Copy, Debug, PartialEq, Eq)]
pub enum NamedLine {
    /// The seat was told this line, here.
    Told(Cursor),
    /// The match may still come to the place that the line names: its hand runs or isn't dealt yet, and has fewer actions.
    Ahead(Cursor),
    /// No line of this seat: it names no place, or the seat was told another line there, or the match won't come to it.
    Other,
}
