ghost use Rattle.std.specs.Prelude.{◌≡◌, MatchOption, MatchResult};
ghost use Rattle.toml.specs.Data.{string};
ghost use Rattle.toml.specs.View.{view};
ghost use Rattle.match_file.specs.Absences.{absent_text, SaysAbsent, SaysAway};
ghost use Rattle.match_file.specs.Said.{IsAbsent};
ghost use Rattle.match_file.specs.Refusals.{IsToldOf};
ghost use Rattle.match_file.specs.declared.key.Key.TheVariants.{Away};

use crate::entries::{at, text_of};
use crate::key::Key;
use crate::match_fault::MatchFault;
use crate::match_file::MatchFile;
use toml::Value;

/// What is done about a seat that was dropped while its match is served, or for which nodes in processes of their own wait.
#[derive(Clone, Copy, Debug, PartialEq, Eq)]
pub enum Absent {
    /// It is waited for; by `serve` at the next node.
    Wait,
    /// It is played for: at each of its turns it folds where it faces something, and else calls.
    Play,
}

impl MatchFile {
    ghost use Rattle.match_file.specs.MatchFile.{members};

    /// What is done about seats that were dropped: they are waited for where there is no entry.
    pub(crate) fn absent(&self) -> Option<Absent>
        ensures { MatchOption result (IsAbsent (SaysAbsent (members self.now))) (SaysAbsent (members self.now)) }
    {
        match at(&self.table, Key::Away) {
            Some(value) => absent_of(value),
            None => Some(Absent::Wait),
        }
    }

    /// What nodes in processes of their own do about seats; none where there is no entry.
    pub(crate) fn away(&self) -> Result<Option<Absent>, MatchFault>
        ensures { MatchResult result (SaysAway (members self.now)) (IsToldOf Away (IsAbsent (SaysAway (members self.now)))) }
    {
        match at(&self.table, Key::Away) {
            Some(value) => match absent_of(value) {
                Some(absent) => Ok(Some(absent)),
                None => Err(MatchFault::BadEntry(Key::Away)),
            },
            None => Ok(None),
        }
    }
}

/// What a value says is done about them.
fn absent_of(value: &Value) -> Option<Absent>
    ensures { MatchOption result (IsAbsent (λ absent. view value.now ≡ string (absent_text absent))) (λ absent. view value.now ≡ string (absent_text absent)) }
{
    match text_of(value) {
        Some(text) => absent_in(text.as_bytes()),
        None => None,
    }
}

/// What a text says is done about them.
fn absent_in(text: &[u8]) -> Option<Absent>
    ensures { MatchOption result (IsAbsent (λ absent. text.now ≡ absent_text absent)) (λ absent. text.now ≡ absent_text absent) }
{
    match text {
        b"wait" => Some(Absent::Wait),
        b"play" => Some(Absent::Play),
        _ => None,
    }
}
