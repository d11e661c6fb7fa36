ghost use Rattle.std.specs.Prelude.{◌≡◌, ℕ, ◌+◌, ◌<◌, ◌≤◌, ◌++◌, decimal, OnOk, OnErr, vec_len, vec_capacity, List, Some, IfSome, IsSomeAnd, IsNone, MatchResult, codes, IsTrue, ◌↔◌};
ghost use Rattle.matchstate.specs.Cards.{cards_field};
ghost use Rattle.matchstate.specs.SeenCards.{holes_in, boards_in};
ghost use Rattle.matchstate.specs.Line.{joined, line_text, newest_text, seat_text, Fields, HasFields, AreNumbers, IsLine, ReadsAs};
ghost use Rattle.matchstate.specs.View.{View as Sight};
ghost use Rattle.matchstate.specs.FieldsInside.{fields_in};

use crate::betting_field::{BettingText, read_betting};
use crate::bytes::put;
use crate::cards_field::put_seen;
use crate::cutting::cut;
use crate::line_fault::LineFault;
use crate::line_fields::LineFields;
use crate::number::{put_number, read_number};
use crate::seating::position_of;
use crate::seen_cards::SeenCards;
use crate::sight::{read_sight, sight};
use crate::view::View;
use betting::Play;
use game_def::GameDef;
use slot_log::Table;
use slot_log::limits::HANDS;
use std::alloc::AllocError;

/// No line has more bytes.
pub const MOST_LINE: usize = 4096;

/// Appends the line of a view of this game, without a line end, as the ACPC protocol 2.0.0 writes it.
///
/// An `Err` comes only where memory was refused; then the text is as before.
pub fn write(out: &mut Vec<u8>, view: &View, game: &GameDef) -> Result<(), AllocError>
    requires { view.now.game ≡ game.now }
    ensures ok { OnOk result (out.new.items ≡ out.old.items ++ line_text view.now) }
    ensures err { OnErr result (out.new.items ≡ out.old.items) }
    ensures full { OnErr result (vec_capacity out.old < vec_len out.old + 4096) }
{
    out.reserve(MOST_LINE)?;
    write_reserved(out, view, game);
    Ok(())
}

/// Appends the line of a view of this game, where `MOST_LINE` bytes are reserved for it: this can't fail.
pub fn write_reserved(out: &mut Vec<u8>, view: &View, game: &GameDef)
    requires same { view.now.game ≡ game.now }
    requires room { vec_len out.old + 4096 ≤ vec_capacity out.old }
    ensures items { out.new.items ≡ out.old.items ++ line_text view.now }
    ensures len { vec_len out.new ≤ vec_len out.old + 4096 }
    ensures capacity { vec_capacity out.old ≤ vec_capacity out.new }
{
    let players = game.players();
    let betting = BettingText::of_actions(
        game,
        &view.actions[..view.count],
        &view.slashes[..view.count],
    );
    put_line(out, players, view.position, view.hand, &betting, &view.seen);
}

/// Appends the line that a seat, counted from 0 and below the number of players, gets now, without a line end: that of
/// its view of the newest hand, of which this is the betting text; nothing before the first deal.
///
/// An `Err` comes only where memory was refused; then the text is as before.
pub fn seat_line(
    out: &mut Vec<u8>,
    table: &Table,
    seat: usize,
    betting: &BettingText,
) -> Result<(), AllocError>
    requires seat { seat < table.now.game.players }
    requires betting { betting.now ≡ newest_text table.now.game table.now.hands }
    ensures ok { OnOk result (out.new.items ≡ out.old.items ++ seat_text table.now.game table.now.hands seat) }
    ensures err { OnErr result (out.new.items ≡ out.old.items) }
    ensures full { OnErr result (vec_capacity out.old < vec_len out.old + 4096) }
{
    out.reserve(MOST_LINE)?;
    seat_line_reserved(out, table, seat, betting);
    Ok(())
}

/// As `seat_line`, where `MOST_LINE` bytes are reserved for it: this can't fail.
pub fn seat_line_reserved(out: &mut Vec<u8>, table: &Table, seat: usize, betting: &BettingText)
    requires seat { seat < table.now.game.players }
    requires betting { betting.now ≡ newest_text table.now.game table.now.hands }
    requires room { vec_len out.old + 4096 ≤ vec_capacity out.old }
    ensures items { out.new.items ≡ out.old.items ++ seat_text table.now.game table.now.hands seat }
    ensures len { vec_len out.new ≤ vec_len out.old + 4096 }
    ensures capacity { vec_capacity out.old ≤ vec_capacity out.new }
{
    let Some(hand) = table.dealt().checked_sub(1) else {
        return;
    };
    let Some(deal) = table.deal(hand) else {
        return;
    };
    let Some(play) = table.play(hand) else {
        return;
    };
    let players = table.game().players();
    let position = position_of(players, hand, seat);
    let seen = sight(deal, play, position);
    put_line(out, players, position, hand, betting, &seen);
}

/// Appends a line: the word, the position, the hand's number, the betting text and the cards that are seen.
fn put_line(
    out: &mut Vec<u8>,
    players: usize,
    position: usize,
    hand: u32,
    betting: &BettingText,
    seen: &SeenCards,
)
    requires players { players ≤ 10 }
    requires position { position < players }
    requires room { vec_len out.old + 4096 ≤ vec_capacity out.old }
    ensures items { out.new.items ≡ out.old.items ++ joined (record { position = decimal position; hand = decimal hand; betting = betting.now; cards = cards_field (holes_in players seen.now) (boards_in seen.now) }) }
    ensures len { vec_len out.new ≤ vec_len out.old + 4096 }
    ensures capacity { vec_capacity out.old ≤ vec_capacity out.new }
{
    put(out, b"MATCHSTATE:");
    put_number(out, position as u32);
    put(out, b":");
    put_number(out, hand);
    put(out, b":");
    betting.put(out);
    put(out, b":");
    put_seen(out, players, seen);
}

/// The view that a server's line of the ACPC protocol 2.0.0 says, given without its line end; or the first of
/// its faults: 40 not the word and four fields, 41 a position that the game hasn't, a hand above 9999 or no
/// decimal without leading zeros, 42 not the betting text of a legal play, 43 not the cards that a viewer at
/// that position sees of any deal.
pub fn read(bytes: &[u8], game: &GameDef) -> Result<View, LineFault>
    ensures { ReadsAs game.now bytes.now result }
{
    match read_played(bytes, game) {
        Ok((view, _)) => Ok(view),
        Err(fault) => Err(fault),
    }
}

/// The view that a server's line says, and the play of its betting text.
pub(crate) fn read_played(bytes: &[u8], game: &GameDef) -> Result<(View, Play), LineFault>
    ensures { MatchResult result (λ read. IsLine game.now bytes.now read.0 × (read.1.game ≡ game.now) × (read.1.past ≡ read.0.past)) (λ fault. ReadsAs game.now bytes.now (Err fault)) }
{
    let Some(fields) = fields_of(bytes) else {
        return Err(LineFault::NotMatchstate);
    };
    let Some((position, hand)) = numbers_of(&fields, game) else {
        return Err(LineFault::BadNumber);
    };
    let Some(play) = read_betting(fields.betting, game) else {
        return Err(LineFault::BadBetting);
    };
    let Some(seen) = read_sight(fields.cards, &play, position) else {
        return Err(LineFault::BadCards);
    };
    let view = View::of(position, hand, &play, seen);
    Ok((view, play))
}

/// What a line shows beside its actions: the position and the hand's number, and the cards.
#[derive(Drop)]
pub(crate) struct LineOf {
    pub(crate) position: usize,
    pub(crate) hand: u32,
    pub(crate) seen: SeenCards,
}

/// What a server's line says that has the actions of a play; none where the text is no such line.
pub(crate) fn read_line_of(bytes: &[u8], play: &Play) -> Option<LineOf>
    ensures found { IfSome result (λ line. IsLine play.now.game bytes.now (record { game = play.now.game; position = line.position; hand = line.hand; past = play.now.past; holes = holes_in play.now.game.players line.seen; boards = boards_in line.seen })) }
    ensures missing { IsNone result → (view : Sight) → view.past ≡ play.now.past → ¬ (IsLine play.now.game bytes.now view) }
{
    let fields = fields_of(bytes)?;
    let (position, hand) = numbers_of(&fields, play.game())?;
    if !BettingText::of(play).is(fields.betting) {
        return None;
    }
    let seen = read_sight(fields.cards, play, position)?;
    Some(LineOf {
        position,
        hand,
        seen,
    })
}

/// The four fields behind the word.
fn fields_of(bytes: &[u8]) -> Option<LineFields<'_>>
    ensures found { IfSome result (λ fields. HasFields bytes.now (fields_in fields)) }
    ensures only { (fields : Fields) → HasFields bytes.now fields → IsSomeAnd result (λ found. fields_in found ≡ fields) }
{
    let rest = after_word(bytes)?;
    let (position, rest) = cut(rest, b':')?;
    let (hand, rest) = cut(rest, b':')?;
    let (betting, cards) = cut(rest, b':')?;
    if cut(cards, b':').is_some() {
        return None;
    }
    Some(LineFields {
        position,
        hand,
        betting,
        cards,
    })
}

/// What stands behind the word that begins each line.
fn after_word(bytes: &[u8]) -> Option<&[u8]>
    ensures found { IfSome result (λ rest. bytes.now ≡ codes "MATCHSTATE:" ++ rest.now) }
    ensures only { (behind : List ℕ) → bytes.now ≡ codes "MATCHSTATE:" ++ behind → IsSomeAnd result (λ rest. rest.now ≡ behind) }
{
    bytes.strip_prefix(b"MATCHSTATE:")
}

/// The position and the number of the hand.
fn numbers_of(fields: &LineFields, game: &GameDef) -> Option<(usize, u32)>
    ensures found { IfSome result (λ numbers. AreNumbers game.now (fields_in fields.now) numbers.0 numbers.1) }
    ensures only { (position hand : ℕ) → AreNumbers game.now (fields_in fields.now) position hand → result ≡ Some (position, hand) }
{
    let players = game.players();
    let position = read_number(fields.position)? as usize;
    let hand = read_number(fields.hand)?;
    if position < players && hand < HANDS {
        Some((position, hand))
    } else {
        None
    }
}

/// Whether the word and the fields of a line are there.
pub(crate) fn has_fields(bytes: &[u8]) -> bool
    ensures { IsTrue result ↔ ((fields : Fields) × HasFields bytes.now fields) }
{
    match fields_of(bytes) {
        Some(_) => true,
        None => false,
    }
}
