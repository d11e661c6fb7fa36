//! The match file that a command is given: a note names it where what it holds is refused.

ghost use Rattle.std.specs.Prelude.{◌≡◌};

use crate::notes::Notes;
use match_file::MatchFault;
use operator_notes::Cause;

/// What was found in the match file at this path, as it is. Where the file isn't TOML, or an entry of it is wrong, a note names
/// it: the fault of the next line is about what it holds.
pub(crate) fn named<T: Drop>(
    path: &str,
    found: Result<T, MatchFault>,
    notes: &mut Notes<'_>,
) -> Result<T, MatchFault>
    ensures { result ≡ found }
{
    if let Err(MatchFault::NotToml | MatchFault::BadEntry(_)) = &found {
        notes.tell_file(path, Cause::Unknown);
    }
    found
}
