ghost use Rattle.std.specs.Prelude.{◌≡◌, ◌+◌, ◌≤◌, ◌++◌, ◌<◌, length, vec_len, vec_capacity, OnOk, OnErr, IsSomeAnd};
ghost use Rattle.card_core.specs.Deal.{IsDeal};
ghost use Rattle.slot_log.specs.Dealer.{finished_count, hand_at};
ghost use Rattle.slot_log.specs.Hand.{Hand};
ghost use Rattle.match_log.specs.Lines.{state_line as line_of};

use crate::dealt_hand::dealt_hand;
use crate::fields::{put_names, put_shown, put_values};
use crate::seat_names::SeatNames;
use crate::settlement::payoffs;
use betting::Play;
use card_core::Deal;
use game_def::GameDef;
use matchstate::{betting_text_reserved, put, put_number};
use slot_log::Table;
use std::alloc::AllocError;

/// No STATE line has more bytes.
pub const MOST_STATE_LINE: usize = 4208;

/// Appends the line of a finished hand, `STATE:hand:betting:cards:values:names` and LF: all hole cards, the board of the
/// rounds reached, and what each position won or lost in whole chips. `hand` counts from 0. Names are given in seat
/// order; values and names are printed by position.
///
/// An `Err` comes only where memory was refused; then nothing has changed.
pub fn state_line(
    out: &mut Vec<u8>,
    table: &Table,
    hand: u32,
    names: &SeatNames,
) -> Result<(), AllocError>
    requires finished { hand < finished_count table.now.game table.now.hands }
    requires names { length names.now ≡ table.now.game.players }
    ensures ok { OnOk result (IsSomeAnd (hand_at table.now.hands hand) (λ found. out.new.items ≡ out.old.items ++ line_of table.now.game names.now hand found)) }
    ensures err { OnErr result (out.new.items ≡ out.old.items) }
    ensures full { OnErr result (vec_capacity out.old < vec_len out.old + 4208) }
{
    out.reserve(MOST_STATE_LINE)?;
    state_line_reserved(out, table, hand, names);
    Ok(())
}

/// As `state_line`, where there is room for `MOST_STATE_LINE` bytes.
pub fn state_line_reserved(out: &mut Vec<u8>, table: &Table, hand: u32, names: &SeatNames)
    requires finished { hand < finished_count table.now.game table.now.hands }
    requires names { length names.now ≡ table.now.game.players }
    requires room { vec_len out.old + 4208 ≤ vec_capacity out.old }
    ensures items { IsSomeAnd (hand_at table.now.hands hand) (λ found. out.new.items ≡ out.old.items ++ line_of table.now.game names.now hand found) }
    ensures len { vec_len out.new ≤ vec_len out.old + 4208 }
    ensures capacity { vec_capacity out.old ≤ vec_capacity out.new }
{
    let (play, deal) = dealt_hand(table, hand);
    put_hand(out, table.game(), hand, play, deal, names);
}

/// Appends the line of a hand, `STATE:hand:betting:cards:values:names` and LF, where there is room for
/// `MOST_STATE_LINE` bytes. Names are in seat order; values and names are printed by position.
#[tactic(auto, unfolding(crate::specs::Lines::state_line, crate::specs::Lines::state_text))]
pub(crate) fn put_hand(
    out: &mut Vec<u8>,
    game: &GameDef,
    number: u32,
    play: &Play,
    deal: &Deal,
    names: &SeatNames,
)
    requires same_game { play.now.game ≡ game.now }
    requires dealt { IsDeal game.now.players deal.now }
    requires names { length names.now ≡ game.now.players }
    requires room { vec_len out.old + 4208 ≤ vec_capacity out.old }
    ensures items { out.new.items ≡ out.old.items ++ line_of game.now names.now number (record { deal = deal.now; past = play.now.past }) }
    ensures len { vec_len out.new ≤ vec_len out.old + 4208 }
    ensures capacity { vec_capacity out.old ≤ vec_capacity out.new }
{
    game.limits();
    let payoffs = payoffs(game, play, deal);
    put(out, b"STATE:");
    put_number(out, number);
    put(out, b":");
    betting_text_reserved(out, play);
    put(out, b":");
    put_shown(out, deal, play.round());
    put(out, b":");
    put_values(out, payoffs.as_slice());
    put(out, b":");
    put_names(out, names.as_slice(), number);
    put(out, b"\n");
}
