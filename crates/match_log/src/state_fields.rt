ghost use Rattle.std.specs.Prelude.{◌≡◌, ℕ, List, take, IfSome, IsSomeAnd};
ghost use Rattle.slot_log.specs.Hand.{Hand};
ghost use Rattle.match_log.specs.Reading.{Fields, fields_in, joined, AreApart, AreOfHand};

use crate::front::after;
use crate::name::Name;
use crate::names_text::read_names;
use crate::numeral::{are_values, is_decimal};
use betting::Play;
use card_core::Deal;
use card_core::limits::PLAYERS;
use game_def::GameDef;
use matchstate::{cut, read_betting, read_shown};

/// The texts of the fields of a hand's line, and what stands behind it.
#[derive(Clone, Copy)]
pub(crate) struct StateFields<'a> {
    pub(crate) number: &'a [u8],
    pub(crate) betting: &'a [u8],
    pub(crate) cards: &'a [u8],
    pub(crate) values: &'a [u8],
    pub(crate) names: &'a [u8],
    pub(crate) behind: &'a [u8],
}

/// A hand's line: its number and values as they stand there, the hand, the names by position, and what
/// stands behind the line.
#[derive(Drop)]
pub(crate) struct StateLine<'a> {
    pub(crate) number: &'a [u8],
    pub(crate) play: Play,
    pub(crate) deal: Deal,
    pub(crate) values: &'a [u8],
    pub(crate) names: [Name; PLAYERS],
    pub(crate) behind: &'a [u8],
}

/// The line of a played hand in front, whatever its number, its values and its names.
pub(crate) fn read_state<'a>(bytes: &'a [u8], game: &GameDef) -> Option<StateLine<'a>>
    ensures found { IfSome result (λ line. (fields : Fields) × (line.number.now ≡ fields.number) × (line.values.now ≡ fields.values) × (bytes.now ≡ joined fields line.behind.now) × ((values : List (List ℕ)) × AreOfHand game.now fields (record { deal = line.deal; past = line.play.past }) values (take game.now.players line.names))) }
    ensures game { IfSome result (λ line. line.play.game ≡ game.now) }
    ensures only { (fields : Fields) (behind : List ℕ) (hand : Hand) (values by_position : List (List ℕ)) → bytes.now ≡ joined fields behind → AreOfHand game.now fields hand values by_position → IsSomeAnd result (λ line. (line.number.now ≡ fields.number) × (take game.now.players line.names ≡ by_position)) }
{
    let fields = cut_fields(bytes)?;
    read_fields(fields, game)
}

/// The hand's line of these fields.
fn read_fields<'a>(fields: StateFields<'a>, game: &GameDef) -> Option<StateLine<'a>>
    ensures found { IfSome result (λ line. (values : List (List ℕ)) × AreOfHand game.now (fields_in fields.entry) (record { deal = line.deal; past = line.play.past }) values (take game.now.players line.names)) }
    ensures same { IfSome result (λ line. (line.number.now ≡ fields.entry.number.now) × (line.values.now ≡ fields.entry.values.now) × (line.behind.now ≡ fields.entry.behind.now)) }
    ensures game { IfSome result (λ line. line.play.game ≡ game.now) }
    ensures only { (hand : Hand) (values by_position : List (List ℕ)) → AreOfHand game.now (fields_in fields.entry) hand values by_position → IsSomeAnd result (λ line. take game.now.players line.names ≡ by_position) }
{
    if !is_decimal(fields.number) || !are_values(fields.values, game.players()) {
        return None;
    }
    let play = read_betting(fields.betting, game)?;
    if !play.finished() {
        return None;
    }
    let deal = read_shown(fields.cards, game.players(), play.round())?;
    let names = read_names(fields.names, game.players())?;
    Some(StateLine {
        number: fields.number,
        play,
        deal,
        values: fields.values,
        names,
        behind: fields.behind,
    })
}

/// The fields of the line in front that begins with the word.
fn cut_fields(bytes: &[u8]) -> Option<StateFields<'_>>
    ensures found { IfSome result (λ cut. bytes.now ≡ joined (fields_in cut) cut.behind.now) }
    ensures only { (fields : Fields) (behind : List ℕ) → AreApart fields → bytes.now ≡ joined fields behind → IsSomeAnd result (λ cut. fields_in cut ≡ fields) }
{
    let line = after(bytes, b"STATE:")?;
    let Some((number, line)) = cut(line, b':') else {
        return None;
    };
    let Some((betting, line)) = cut(line, b':') else {
        return None;
    };
    let Some((cards, line)) = cut(line, b':') else {
        return None;
    };
    let Some((values, line)) = cut(line, b':') else {
        return None;
    };
    let Some((names, behind)) = cut(line, b'\n') else {
        return None;
    };
    Some(StateFields {
        number,
        betting,
        cards,
        values,
        names,
        behind,
    })
}
