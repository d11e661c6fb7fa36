ghost use Rattle.std.specs.Prelude.{◌≡◌, ℕ, ◌≤◌, ◌↔◌, List, length, IsSome, IfSome, IsTrue, Some, bytes_eq};
ghost use Rattle.std.specs.List.{AllByRecursion, IsDistinct, list_any};
ghost use Rattle.match_log.specs.Lines.{names_field};
ghost use Rattle.match_log.specs.Names.{IsName, AreNames};

use crate::name::Name;
use crate::names_text::read_names;
use card_core::limits::PLAYERS;
use std::marker::Model;

/// A name for each seat of a match, in seat order, no two the same.
///
/// Contracts see the list of the names.
#[derive(Clone, Copy, Debug, PartialEq, Eq)]
pub struct SeatNames {
    names: [Name; PLAYERS],
    count: usize,
}

impl Model for SeatNames {
    ghost use Rattle.std.specs.Prelude.{List, ℕ, take};

    ghost Value = { List (List ℕ) };

    ghost use Rattle.match_log.specs.SeatNamesInside.{IsKept, inside_of, inside_of-view};

    ghost view = { λ d. take d.count d.names };

    ghost invariant = { IsKept };

    ghost inverse = { inside_of };

    ghost inverse_ok = { inside_of-view };
}

impl SeatNames {
    /// These names for 2 to 10 seats, in seat order; none where they aren't one for each seat, no two the same.
    pub fn new(names: &[Name], players: usize) -> Option<SeatNames>
        requires least { 2 ≤ players }
        requires most { players ≤ 10 }
        ensures found { IsSome result ↔ AreNames players names.now }
        ensures value { IfSome result (λ seats. seats ≡ names.now) }
    {
        if !are_names(names, players) {
            return None;
        }
        let mut kept = [names[0]; PLAYERS];
        kept[..names.len()].copy_from_slice(names);
        Some(SeatNames {
            names: kept,
            count: names.len(),
        })
    }

    /// The names that a text has for 2 to 10 seats, in seat order with `|` between them; none where it hasn't one
    /// for each seat, each 1 to 32 of letters, digits, `_`, `-` and `.`, no two the same.
    pub fn read(bytes: &[u8], players: usize) -> Option<SeatNames>
        requires least { 2 ≤ players }
        requires most { players ≤ 10 }
        ensures found { IfSome result (λ names. bytes.now ≡ names_field names) }
        ensures names { IfSome result (λ names. AreNames players names) }
        ensures only { (names : List (List ℕ)) → AreNames players names → bytes.now ≡ names_field names → result ≡ Some names }
    {
        let names = read_names(bytes, players)?;
        SeatNames::new(&names[..players], players)
    }

    /// The names in seat order, 2 to 10.
    pub fn as_slice(&self) -> &[Name]
        ensures value { result.now ≡ self.now }
        ensures names { AreNames (length self.now) self.now }
        ensures least { 2 ≤ length self.now }
        ensures most { length self.now ≤ 10 }
    {
        &self.names[..self.count]
    }
}

/// Whether these are names for so many seats: one for each, no two the same.
pub(crate) fn are_names(names: &[Name], players: usize) -> bool
    ensures { IsTrue result ↔ AreNames players names.now }
{
    names.len() == players && are_distinct(names)
}

/// Whether no name stands there twice.
fn are_distinct(names: &[Name]) -> bool
    ensures distinct { IsTrue result ↔ IsDistinct bytes_eq names.now }
    ensures each_name { AllByRecursion IsName names.now }
{
    match names {
        [] => true,
        [first, rest @ ..] => {
            let later = are_distinct(rest);
            !has_name(rest, first.as_bytes()) && later
        }
    }
}

/// Whether a name is these bytes.
fn has_name(names: &[Name], bytes: &[u8]) -> bool
    ensures { result ≡ list_any (λ name. bytes_eq bytes.now name) names.now }
{
    names.iter().any(|name| bytes == name.as_bytes())
}
