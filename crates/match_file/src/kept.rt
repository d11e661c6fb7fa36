//! What `match.kept` says, the file beside a match's stores: of which match and how many nodes they are.

ghost use Rattle.std.specs.Prelude.{◌≡◌, ◌↔◌, ◌++◌, ◌∷◌, [], IfOk, OnOk, IfSome, IsNone, codes, decimal};
ghost use Rattle.std.specs.List.{flat_map};
ghost use Rattle.match_log.specs.Lines.{names_field};
ghost use Rattle.match_file.specs.Kept.{Keeps, Shows, kept_of, kept_text, line};

use crate::difference::Difference;
use crate::kept_match::KeptMatch;
use dealer_kind::Config;
use match_log::Name;
use std::alloc::{AllocError, Global};

/// What `match.kept` has of a match: its name, the word of its game, its hands, its seats' names and the count of its
/// nodes, each on a line of its own, and behind an empty line the bytes of its game file.
pub fn kept_text(alloc: Global, config: &Config, game: &[u8]) -> Result<Vec<u8>, AllocError>
    ensures { IfOk result (λ text. text.items ≡ kept_text (kept_of config.now) game.now) }
{
    let mut text = Vec::new(alloc);
    text.extend_from_slice(b"# match.kept 1\n")?;
    put_line(&mut text, b"name ", config.name().as_bytes())?;
    put_line(&mut text, b"game ", config.game_word())?;
    put_number(&mut text, b"hands ", config.hands())?;
    put_names(&mut text, config.names().as_slice())?;
    put_number(&mut text, b"nodes ", config.nodes() as u32)?;
    text.extend_from_slice(b"\n")?;
    text.extend_from_slice(game)?;
    Ok(text)
}

/// What the text of a `match.kept` shows against a match: in what the kept match is another, the first thing in the
/// order of `Difference`, or that no match is kept there; none where it is the match's own. The games are compared as
/// values.
pub fn kept_difference(config: &Config, text: &[u8]) -> Option<Difference>
    ensures same { IsNone result ↔ Keeps text.now (kept_of config.now) }
    ensures other { IfSome result (Shows text.now (kept_of config.now)) }
{
    match KeptMatch::read(text) {
        Some(kept) => kept.difference(config),
        None => Some(Difference::Unread),
    }
}

/// Appends a line: a word with a space behind it, and what it says.
pub(crate) fn put_line(text: &mut Vec<u8>, word: &[u8], value: &[u8]) -> Result<(), AllocError>
    ensures { OnOk result (text.new.items ≡ text.old.items ++ line word.now value.now []) }
{
    text.extend_from_slice(word)?;
    text.extend_from_slice(value)?;
    text.extend_from_slice(b"\n")
}

/// Appends a line that says a number.
pub(crate) fn put_number(text: &mut Vec<u8>, word: &[u8], number: u32) -> Result<(), AllocError>
    ensures { OnOk result (text.new.items ≡ text.old.items ++ line word.now (decimal number) []) }
{
    let digits = format!(in *text.allocator(); "{number}")?;
    put_line(text, word, digits.as_bytes())
}

/// Appends the line that says names.
fn put_names(text: &mut Vec<u8>, names: &[Name]) -> Result<(), AllocError>
    ensures { OnOk result (text.new.items ≡ text.old.items ++ line (codes "names ") (names_field names.now) []) }
{
    text.extend_from_slice(b"names ")?;
    put_joined(text, names)?;
    text.extend_from_slice(b"\n")
}

/// Appends names with `|` between them.
fn put_joined(text: &mut Vec<u8>, names: &[Name]) -> Result<(), AllocError>
    ensures { OnOk result (text.new.items ≡ text.old.items ++ names_field names.now) }
{
    match names {
        [first, rest @ ..] => {
            text.extend_from_slice(first.as_bytes())?;
            put_further(text, rest)
        }
        [] => Ok(()),
    }
}

/// Appends names, each behind `|`.
fn put_further(text: &mut Vec<u8>, names: &[Name]) -> Result<(), AllocError>
    ensures { OnOk result (text.new.items ≡ text.old.items ++ flat_map (λ name. 124 ∷ name) names.now) }
{
    if let [first, rest @ ..] = names {
        text.extend_from_slice(b"|")?;
        text.extend_from_slice(first.as_bytes())?;
        put_further(text, rest)?;
    }
    Ok(())
}
