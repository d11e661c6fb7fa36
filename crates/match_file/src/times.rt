//! Times: seconds in a match file, milliseconds here.

ghost use Rattle.std.specs.Prelude.{◌≡◌, ◌≤◌, ◌+◌, pos, true, MatchOption, MatchResult};
ghost use Rattle.std.specs.Char.{is_ascii_digit};
ghost use Rattle.toml.specs.Data.{string, integer};
ghost use Rattle.toml.specs.View.{view};
ghost use Rattle.match_file.specs.Said.{IsAbsent};
ghost use Rattle.match_file.specs.Refusals.{IsToldOf};
ghost use Rattle.match_file.specs.Times.{IsFraction, IsTime, SaysTime};

use crate::entries::{at, number_of, text_of};
use crate::key::Key;
use crate::match_fault::MatchFault;
use crate::match_file::MatchFile;
use matchstate::{are_digits, cut, read_number};
use toml::Value;

/// The shortest time, in milliseconds.
const LEAST: u32 = 100;

/// The longest time, a day in seconds.
const DAY: u32 = 86_400;

/// A second, in milliseconds.
const SECOND: u32 = 1000;

impl MatchFile {
    ghost use Rattle.match_file.specs.MatchFile.{members};

    /// The time at a key in milliseconds, 100 to 86400000; none where there is no entry.
    pub(crate) fn time(&self, key: Key) -> Result<Option<u32>, MatchFault>
        ensures { MatchResult result (SaysTime key (members self.now)) (IsToldOf key (IsAbsent (SaysTime key (members self.now)))) }
    {
        match at(&self.table, key) {
            Some(value) => match time_of(value) {
                Some(milliseconds) => Ok(Some(milliseconds)),
                None => Err(MatchFault::BadEntry(key)),
            },
            None => Ok(None),
        }
    }
}

/// The time that a value says: a number of whole seconds, or a text with a point.
fn time_of(value: &Value) -> Option<u32>
    ensures { MatchOption result (IsAbsent (IsTime (view value.now))) (IsTime (view value.now)) }
{
    match number_of(value) {
        Some(seconds) => whole_time(seconds),
        None => match text_of(value) {
            Some(text) => pointed_time(text.as_bytes()),
            None => None,
        },
    }
}

/// So many whole seconds.
fn whole_time(seconds: u64) -> Option<u32>
    ensures { MatchOption result (IsAbsent (IsTime (integer (pos seconds)))) (IsTime (integer (pos seconds))) }
{
    if 1 <= seconds && seconds <= DAY as u64 {
        Some(seconds as u32 * SECOND)
    } else {
        None
    }
}

/// The seconds of a text: whole ones, a point, and one to three digits.
fn pointed_time(text: &[u8]) -> Option<u32>
    ensures { MatchOption result (IsAbsent (IsTime (string text.now))) (IsTime (string text.now)) }
{
    let (front, digits) = cut(text, b'.')?;
    let seconds = read_number(front)?;
    let thousandths = thousandths_of(digits)?;
    if seconds > DAY {
        return None;
    }
    let milliseconds = seconds * SECOND + thousandths;
    if LEAST <= milliseconds && milliseconds <= DAY * SECOND {
        Some(milliseconds)
    } else {
        None
    }
}

/// What one to three digits behind a point are in thousandths.
fn thousandths_of(digits: &[u8]) -> Option<u32>
    ensures { MatchOption result (IsAbsent (IsFraction digits.now)) (λ thousandths. IsFraction digits.now thousandths × (thousandths ≤ 999)) }
{
    if !are_digits(digits) {
        return None;
    }
    match digits {
        [tenths] => Some(100 * value_of(*tenths)),
        [tenths, hundredths] => Some(100 * value_of(*tenths) + 10 * value_of(*hundredths)),
        [tenths, hundredths, thousandths] => Some(
            100 * value_of(*tenths) + 10 * value_of(*hundredths) + value_of(*thousandths),
        ),
        _ => None,
    }
}

/// The number that a digit is.
fn value_of(digit: u8) -> u32
    requires { is_ascii_digit digit ≡ true }
    ensures value { result + 48 ≡ digit }
    ensures most { result ≤ 9 }
{
    (digit - b'0') as u32
}
