ghost use Rattle.std.specs.Prelude.{◌≡◌, pos, Some, MatchOption, option_map};
ghost use Rattle.toml.specs.Data.{string, integer, array};
ghost use Rattle.toml.specs.View.{view, table_view, array_view};
ghost use Rattle.match_file.specs.Matches.{entry_at};
ghost use Rattle.match_file.specs.Said.{IsAbsent};

use crate::key::Key;
use toml::value::Array;
use toml::{Table, Value};

/// What stands at a key, said by `Key` and not by its text.
pub(crate) fn at(table: &Table, key: Key) -> Option<&Value>
    ensures { option_map (λ value. view value.now) result ≡ entry_at key (table_view table.now) }
{
    table.get(key.text())
}

/// The text that a value is: `as_str`, said both ways, as the readers of each key want it.
pub(crate) fn text_of(value: &Value) -> Option<&str>
    ensures { MatchOption result (IsAbsent (λ text. view value.now ≡ string text)) (λ text. view value.now ≡ string text.now) }
{
    value.as_str()
}

/// The number that a value is, at least 0.
pub(crate) fn number_of(value: &Value) -> Option<u64>
    ensures { MatchOption result (IsAbsent (λ number. view value.now ≡ integer (pos number))) (λ number. view value.now ≡ integer (pos number)) }
{
    match value.as_integer() {
        Some(number) if number >= 0 => Some(number as u64),
        _ => None,
    }
}

/// The items of the array that a value is: `as_array`, said both ways, as the readers of each key want it.
pub(crate) fn array_of(value: &Value) -> Option<&Array>
    ensures { MatchOption result (IsAbsent (λ items. view value.now ≡ array items)) (λ items. view value.now ≡ array (array_view items.now)) }
{
    value.as_array()
}

/// The text at a key.
pub(crate) fn text_at(table: &Table, key: Key) -> Option<&str>
    ensures { MatchOption result (IsAbsent (λ text. entry_at key (table_view table.now) ≡ Some (string text))) (λ text. entry_at key (table_view table.now) ≡ Some (string text.now)) }
{
    match at(table, key) {
        Some(value) => text_of(value),
        None => None,
    }
}

/// The number at a key, at least 0.
pub(crate) fn number_at(table: &Table, key: Key) -> Option<u64>
    ensures { MatchOption result (IsAbsent (λ number. entry_at key (table_view table.now) ≡ Some (integer (pos number)))) (λ number. entry_at key (table_view table.now) ≡ Some (integer (pos number))) }
{
    match at(table, key) {
        Some(value) => number_of(value),
        None => None,
    }
}

/// The items of the array at a key.
pub(crate) fn array_at(table: &Table, key: Key) -> Option<&Array>
    ensures { MatchOption result (IsAbsent (λ items. entry_at key (table_view table.now) ≡ Some (array items))) (λ items. entry_at key (table_view table.now) ≡ Some (array (array_view items.now))) }
{
    match at(table, key) {
        Some(value) => array_of(value),
        None => None,
    }
}
