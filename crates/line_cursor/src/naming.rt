//! Where a line stands that a seat names.

ghost use Rattle.std.specs.Prelude.{◌≡◌, ◌≢◌, true, false, ℕ, ◌<◌, ◌++◌, List, Some, IfSome, IsSomeAnd, codes, count_by};
ghost use Rattle.line_cursor.specs.Past.{seat_line_at};
ghost use Rattle.line_cursor.specs.Naming.{HasPlaceFields, NamesPlace, IsNamed, is_action_letter};
ghost use Rattle.line_cursor.specs.declared.cursor.Cursor.{Cursor as Place};

use crate::cursor::Cursor;
use crate::named_line::NamedLine;
use crate::past::write_line_at;
use crate::seat_line::SeatLine;
use matchstate::{cut, read_number};
use slot_log::Table;

/// What a line, given without its line end, is to a seat of a match; the seat is counted from 0 and below the number of
/// players.
pub fn find_line(table: &Table, seat: usize, line: &[u8]) -> NamedLine
    requires { seat < table.now.game.players }
    ensures is { IsNamed table.now.game table.now.count table.now.hands seat line.now result }
    ensures told { (cursor : Place) → seat_line_at table.now.game table.now.hands seat cursor.hand cursor.actions ≡ Some line.now → result ≡ NamedLine.Told cursor }
{
    table.limits();
    match place_named(line) {
        Some(cursor) => find_line_at(table, seat, line, cursor),
        None => NamedLine::Other,
    }
}

/// What a line that names this place, and no other, is to a seat.
fn find_line_at(table: &Table, seat: usize, line: &[u8], cursor: Cursor) -> NamedLine
    requires seat { seat < table.now.game.players }
    requires named { NamesPlace line.now cursor }
    requires only { (other : Place) → NamesPlace line.now other → other ≡ cursor }
    ensures is { IsNamed table.now.game table.now.count table.now.hands seat line.now result }
    ensures told { seat_line_at table.now.game table.now.hands seat cursor.hand cursor.actions ≡ Some line.now → result ≡ NamedLine.Told cursor }
{
    if !cursor.has_lines(table) {
        return if table.finished() <= cursor.hand && cursor.hand < table.hands() {
            NamedLine::Ahead(cursor)
        } else {
            NamedLine::Other
        };
    }
    if is_line_at(table, seat, line, cursor) {
        NamedLine::Told(cursor)
    } else {
        NamedLine::Other
    }
}

/// Whether a seat was told this line at a place.
fn is_line_at(table: &Table, seat: usize, line: &[u8], cursor: Cursor) -> bool
    requires { seat < table.now.game.players }
    ensures told { result ≡ true → seat_line_at table.now.game table.now.hands seat cursor.hand cursor.actions ≡ Some line.now }
    ensures other { result ≡ false → seat_line_at table.now.game table.now.hands seat cursor.hand cursor.actions ≢ Some line.now }
{
    let mut told = SeatLine::new();
    if !write_line_at(&mut told, table, seat, cursor.hand, cursor.actions) {
        return false;
    }
    told.as_bytes() == line
}

/// The place that a line names; none where it names none.
fn place_named(text: &[u8]) -> Option<Cursor>
    ensures found { IfSome result (λ cursor. NamesPlace text.now cursor) }
    ensures only { (cursor : Place) → NamesPlace text.now cursor → result ≡ Some cursor }
{
    let (number, betting) = place_fields(text)?;
    let hand = read_number(number)?;
    Some(Cursor {
        hand,
        actions: action_count(betting),
    })
}

/// The fields of a line that say its place: those of the hand's number and of the betting.
fn place_fields(text: &[u8]) -> Option<(&[u8], &[u8])>
    ensures found { IfSome result (λ fields. HasPlaceFields text.now fields.0.now fields.1.now) }
    ensures only { (hand betting : List ℕ) → HasPlaceFields text.now hand betting → IsSomeAnd result (λ fields. (fields.0.now ≡ hand) × (fields.1.now ≡ betting)) }
{
    let rest = after_word(text)?;
    let (_, rest) = cut(rest, b':')?;
    let (hand, rest) = cut(rest, b':')?;
    let (betting, _) = cut(rest, b':')?;
    Some((hand, betting))
}

/// What comes after the word with which each line begins.
fn after_word(text: &[u8]) -> Option<&[u8]>
    ensures found { IfSome result (λ rest. text.now ≡ codes "MATCHSTATE:" ++ rest.now) }
    ensures only { (behind : List ℕ) → text.now ≡ codes "MATCHSTATE:" ++ behind → IsSomeAnd result (λ rest. rest.now ≡ behind) }
{
    text.strip_prefix(b"MATCHSTATE:")
}

/// How many actions a betting text has: each begins with a letter.
fn action_count(betting: &[u8]) -> usize
    ensures { result ≡ count_by is_action_letter betting.now }
{
    let mut count = 0;
    for byte in betting {
        if matches!(*byte, b'f' | b'c' | b'r') {
            count += 1;
        }
    }
    count
}
