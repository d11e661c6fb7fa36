ghost use Rattle.std.specs.Prelude.{◌≡◌, ◌∷◌, [], ◌++◌, false, ◌≤◌, IsTrue, Ok, Err, Some, None, MatchOption, MatchResult, IfOk, length};
ghost use Rattle.std.specs.List.{list_all};
ghost use Rattle.std.specs.Char.{is_ascii_digit};
ghost use Rattle.game_def.specs.Key.{fits, key_named};
ghost use Rattle.game_def.specs.Text.{words};
ghost use Rattle.game_def.specs.Entries.{is_set};
ghost use Rattle.game_def.specs.GameFile.{number_of};
ghost use Rattle.game_def.specs.Reading.{is_number, number, values, is_sign, without_sign, entry_with, with_line};

use crate::entries::Entries;
use crate::entry::{Entry, MOST_VALUES};
use crate::fault_kind::FaultKind;
use crate::key::Key;
use crate::text::next_word;
use arrayvec::ArrayVec;

/// The most digits of a number.
const MOST_DIGITS: usize = 10;

fn all_digits(word: &[u8]) -> bool
    ensures { result ≡ list_all is_ascii_digit word.now }
{
    word.iter().all(|byte| byte.is_ascii_digit())
}

fn is_number(word: &[u8]) -> bool
    ensures { result ≡ is_number word.now }
{
    !word.is_empty() && word.len() <= MOST_DIGITS && all_digits(word)
}

/// The number that at most ten digits write.
fn decimal(digits: &[u8]) -> u64
    requires short { length digits.now ≤ 10 }
    requires only_digits { IsTrue (list_all is_ascii_digit digits.now) }
    ensures { result ≡ number_of digits.now }
{
    let mut number = 0;
    for digit in digits {
        number = 10 * number + u64::from(*digit - b'0');
    }
    number
}

/// A value of a key.
#[tactic(auto, unfolding(crate::specs::Reading::number))]
fn read_number(key: Key, word: &[u8]) -> Result<u64, FaultKind>
    ensures { result ≡ number key word.now }
{
    if !is_number(word) {
        return Err(FaultKind::BadNumber);
    }
    let number = decimal(word);
    if !key.fits(number) {
        return Err(FaultKind::BadNumber);
    }
    Ok(number)
}

/// The values of a key. Each is tested as a number before their count is looked at.
fn read_values(key: Key, text: &[u8]) -> Result<ArrayVec<u64, MOST_VALUES>, FaultKind>
    ensures value { MatchResult result (λ found. values key (words text.now) ≡ Ok found.items) (λ fault. values key (words text.now) ≡ Err fault) }
    ensures fitting { IfOk result (λ found. IsTrue (list_all (fits key) found.items)) }
{
    let mut found = ArrayVec::new();
    let mut too_many = false;
    let mut rest = text;
    while let Some((word, after)) = next_word(rest) {
        let number = read_number(key, word)?;
        if found.is_full() {
            too_many = true;
        } else {
            found.push(number);
        }
        rest = after;
    }
    if too_many {
        return Err(FaultKind::WrongCount);
    }
    if !key.allows(found.len()) {
        return Err(FaultKind::WrongCount);
    }
    Ok(found)
}

/// Whether a word is `=`.
fn is_sign(word: &[u8]) -> bool
    ensures { result ≡ is_sign word.now }
{
    matches!(word, [b'='])
}

/// What follows a key and the `=` that may stand behind it.
#[tactic(auto, unfolding(crate::specs::Reading::without_sign))]
fn skip_sign(text: &[u8]) -> &[u8]
    ensures { words result.now ≡ without_sign (words text.now) }
{
    match next_word(text) {
        Some((word, after)) => { if is_sign(word) { after } else { text } }
        None => text,
    }
}

/// The entry of a line that begins with a word.
#[tactic(auto, unfolding(crate::specs::Reading::entry_with))]
fn read_entry(entries: &Entries, line: usize, name: &[u8], text: &[u8]) -> Result<Entry, FaultKind>
    ensures value { result ≡ entry_with entries.now line (words text.now) (key_named name.now) }
    ensures new_key { IfOk result (λ entry. is_set entries.now entry.key ≡ false) }
    ensures fitting { IfOk result (λ entry. IsTrue (list_all (fits entry.key) entry.values.items)) }
{
    let Some(key) = Key::named(name) else {
        return Err(FaultKind::UnknownKey);
    };
    if entries.has(key) {
        return Err(FaultKind::RepeatedKey);
    }
    let values = read_values(key, skip_sign(text))?;
    Ok(Entry { key, line, values })
}

/// Adds the entry of a line to the entries; a line without a word has none.
#[tactic(auto, unfolding(crate::specs::Reading::with_line))]
pub(crate) fn read_line(entries: &mut Entries, line: usize, text: &[u8]) -> Result<(), FaultKind>
    ensures { MatchResult result (λ _. with_line entries.old line (words text.now) ≡ Ok entries.new) (λ fault. with_line entries.old line (words text.now) ≡ Err fault) }
{
    let Some((name, rest)) = next_word(text) else {
        return Ok(());
    };
    let entry = read_entry(entries, line, name, rest)?;
    entries.push(entry);
    Ok(())
}
