ghost use Rattle.std.specs.Prelude.{◌≡◌, ◌≤◌, map, MatchOption, MatchResult, OnOk};
ghost use Rattle.toml.specs.View.{view};
ghost use Rattle.match_file.specs.Matches.{SaysNames};
ghost use Rattle.match_file.specs.Said.{IsAbsent, EachSays, SaysName};
ghost use Rattle.match_file.specs.Refusals.{IsToldOf};
ghost use Rattle.match_file.specs.declared.key.Key.TheVariants.{Names};

use crate::entries::{array_at, text_of};
use crate::key::Key;
use crate::match_fault::MatchFault;
use crate::match_file::MatchFile;
use match_log::{Name, SeatNames};
use std::alloc::Global;
use toml::Value;

impl MatchFile {
    ghost use Rattle.match_file.specs.MatchFile.{members};

    /// The seats' names, one for each of 2 to 10 seats.
    pub(crate) fn seat_names(&self, alloc: Global, players: usize) -> Result<SeatNames, MatchFault>
        requires least { 2 ≤ players }
        requires most { players ≤ 10 }
        ensures { MatchResult result (SaysNames players (members self.now)) (IsToldOf Names (IsAbsent (SaysNames players (members self.now)))) }
    {
        match array_at(&self.table, Key::Names) {
            Some(values) => match SeatNames::new(&names_of(alloc, values)?, players) {
                Some(names) => Ok(names),
                None => Err(MatchFault::BadEntry(Key::Names)),
            },
            None => Err(MatchFault::BadEntry(Key::Names)),
        }
    }
}

/// The names that texts are.
fn names_of(alloc: Global, values: &[Value]) -> Result<Vec<Name>, MatchFault>
    ensures { MatchResult result (λ names. EachSays SaysName (map view values.now) names.items) (IsToldOf Names (IsAbsent (EachSays SaysName (map view values.now)))) }
{
    let mut names = Vec::new(alloc);
    for value in values {
        match name_of(value) {
            Some(name) => names.push(name)?,
            None => return Err(MatchFault::BadEntry(Key::Names)),
        }
    }
    Ok(names)
}

/// The name that a text is.
fn name_of(value: &Value) -> Option<Name>
    ensures { MatchOption result (IsAbsent (SaysName (view value.now))) (SaysName (view value.now)) }
{
    match text_of(value) {
        Some(text) => Name::new(text.as_bytes()),
        None => None,
    }
}
