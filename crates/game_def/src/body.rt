ghost use Rattle.std.specs.Prelude.{◌≡◌, ◌+◌, ◌<◌, ◌≤◌, ◌^◌, [], Ok, Err, MatchResult, IfOk, length};
ghost use Rattle.std.specs.Option.{option_map};
ghost use Rattle.game_def.specs.Text.{lines, words};
ghost use Rattle.game_def.specs.Reading.{is_blank, is_gamedef, is_end, gamedef_from, entries_from, named_first};

use crate::entries::Entries;
use crate::fault::GameFault;
use crate::fault_kind::FaultKind;
use crate::line::read_line;
use crate::text::{next_line, next_word};

/// What follows the first word of a line, where that word is the name.
fn after_name<'a>(line: &'a [u8], name: &[u8]) -> Option<&'a [u8]>
    ensures { option_map (λ rest. words rest.now) result ≡ named_first name.now (words line.now) }
{
    let (word, rest) = next_word(line)?;
    if word.eq_ignore_ascii_case(name) {
        Some(rest)
    } else {
        None
    }
}

/// Whether no word stands on a line.
fn is_blank(line: &[u8]) -> bool
    ensures { result ≡ is_blank (words line.now) }
{
    next_word(line).is_none()
}

fn is_gamedef(line: &[u8]) -> bool
    ensures { result ≡ is_gamedef (words line.now) }
{
    match after_name(line, b"gamedef") {
        Some(rest) => is_blank(rest),
        None => false,
    }
}

fn is_end(line: &[u8]) -> bool
    ensures { result ≡ is_end (words line.now) }
{
    match after_name(line, b"end") {
        Some(rest) => is_gamedef(rest),
        None => false,
    }
}

/// What follows the line `GAMEDEF`, and how many lines stand up to it.
pub(crate) fn after_gamedef(text: &[u8]) -> Result<(usize, &[u8]), GameFault>
    ensures value { MatchResult result (λ x. gamedef_from 0 (lines text.now) ≡ Ok (x.0, lines x.1.now)) (λ fault. gamedef_from 0 (lines text.now) ≡ Err fault) }
    ensures within { IfOk result (λ x. x.0 + length x.1.now ≤ length text.now) }
{
    let mut read = 0;
    let mut rest = text;
    while let Some((line, after)) = next_line(rest) {
        read += 1;
        if is_gamedef(line) {
            return Ok((read, after));
        }
        if !is_blank(line) {
            return Err(FaultKind::NoGamedef.at(read));
        }
        rest = after;
    }
    Err(FaultKind::NoGamedef.at(read))
}

/// The entries of the lines up to `END GAMEDEF`, and the number of that line; so many lines stand
/// before the text.
pub(crate) fn read_entries(text: &[u8], before: usize) -> Result<(Entries, usize), GameFault>
    requires { before + length text.now < 2 ^ 64 }
    ensures { result ≡ entries_from before [] (lines text.now) }
{
    let mut entries = Entries::new();
    let mut read = before;
    let mut rest = text;
    while let Some((line, after)) = next_line(rest) {
        read += 1;
        if is_end(line) {
            return Ok((entries, read));
        }
        if let Err(kind) = read_line(&mut entries, read, line) {
            return Err(kind.at(read));
        }
        rest = after;
    }
    Err(FaultKind::NoEnd.at(read))
}
