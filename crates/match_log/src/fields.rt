ghost use Rattle.std.specs.Prelude.{◌≡◌, ℕ, ◌+◌, ◌*◌, ◌<◌, ◌≤◌, ◌++◌, ◌∷◌, [], map, length, take, vec_len, vec_capacity};
ghost use Rattle.std.specs.Fmt.{signed_decimal};
ghost use Rattle.std.specs.List.{flat_map, join_by};
ghost use Rattle.card_core.specs.Deal.{player_count};
ghost use Rattle.matchstate.specs.Cards.{cards_text, cards_field, holes_of, boards_of};
ghost use Rattle.match_log.specs.Lines.{bar_before, values_field, names_field};
ghost use Rattle.match_log.specs.Names.{names_by_position};

use crate::name::Name;
use card_core::{Card, Deal};
use itoa::Buffer;
use matchstate::{put, put_cards};

/// Appends the `|` in front of all pieces but the first, for which there is room.
fn put_bar(out: &mut Vec<u8>, place: usize)
    requires { vec_len out.old + 1 ≤ vec_capacity out.old }
    ensures items { out.new.items ≡ out.old.items ++ bar_before place }
    ensures len { vec_len out.new ≤ vec_len out.old + 1 }
    ensures capacity { vec_capacity out.old ≤ vec_capacity out.new }
{
    if place > 0 {
        put(out, b"|");
    }
}

/// Appends amounts with `|` between them, for which there is room.
pub(crate) fn put_values(out: &mut Vec<u8>, values: &[i64])
    requires { vec_len out.old + 21 * length values.now ≤ vec_capacity out.old }
    ensures items { out.new.items ≡ out.old.items ++ values_field values.now }
    ensures len { vec_len out.new ≤ vec_len out.old + 21 * length values.now }
    ensures capacity { vec_capacity out.old ≤ vec_capacity out.new }
{
    for (place, amount) in values.iter().enumerate() {
        put_bar(out, place);
        put_amount(out, *amount);
    }
}

/// Appends an amount of whole chips, won or lost, for which there is room.
fn put_amount(out: &mut Vec<u8>, amount: i64)
    requires { vec_len out.old + 20 ≤ vec_capacity out.old }
    ensures items { out.new.items ≡ out.old.items ++ signed_decimal amount }
    ensures len { vec_len out.new ≤ vec_len out.old + 20 }
    ensures capacity { vec_capacity out.old ≤ vec_capacity out.new }
{
    put(out, Buffer::new().format(amount).as_bytes());
}

/// Appends the seats' names by position with `|` between them, in a hand of this number.
pub(crate) fn put_names(out: &mut Vec<u8>, names: &[Name], hand: u32)
    requires some { 1 ≤ length names.now }
    requires few { length names.now ≤ 10 }
    requires room { vec_len out.old + 33 * length names.now ≤ vec_capacity out.old }
    ensures items { out.new.items ≡ out.old.items ++ names_field (names_by_position (length names.now) hand names.now) }
    ensures len { vec_len out.new ≤ vec_len out.old + 33 * length names.now }
    ensures capacity { vec_capacity out.old ≤ vec_capacity out.new }
{
    for position in 0..names.len() {
        put_bar(out, position);
        put(
            out,
            names[(position + hand as usize) % names.len()].as_bytes(),
        );
    }
}

/// Appends all hole cards, and the board of so many later rounds, for which there is room.
pub(crate) fn put_shown(out: &mut Vec<u8>, deal: &Deal, rounds: usize)
    requires rounds { rounds ≤ 3 }
    requires room { vec_len out.old + 63 ≤ vec_capacity out.old }
    ensures items { out.new.items ≡ out.old.items ++ cards_field (holes_of (player_count deal.now) deal.now) (take rounds (boards_of deal.now)) }
    ensures len { vec_len out.new ≤ vec_len out.old + 63 }
    ensures capacity { vec_capacity out.old ≤ vec_capacity out.new }
{
    put_holes(out, deal);
    put_board(out, deal, rounds);
}

/// Appends the hole cards by position, with `|` between them.
fn put_holes(out: &mut Vec<u8>, deal: &Deal)
    requires { vec_len out.old + 50 ≤ vec_capacity out.old }
    ensures items { out.new.items ≡ out.old.items ++ join_by cards_text (124 ∷ []) (holes_of (player_count deal.now) deal.now) }
    ensures len { vec_len out.new ≤ vec_len out.old + 50 }
    ensures capacity { vec_capacity out.old ≤ vec_capacity out.new }
{
    for position in 0..deal.players() {
        put_bar(out, position);
        put_cards(out, &deal.hole(position));
    }
}

/// Appends the board of so many later rounds.
fn put_board(out: &mut Vec<u8>, deal: &Deal, rounds: usize)
    requires rounds { rounds ≤ 3 }
    requires room { vec_len out.old + 13 ≤ vec_capacity out.old }
    ensures items { out.new.items ≡ out.old.items ++ flat_map (λ cards. 47 ∷ cards_text cards) (take rounds (boards_of deal.now)) }
    ensures len { vec_len out.new ≤ vec_len out.old + 13 }
    ensures capacity { vec_capacity out.old ≤ vec_capacity out.new }
{
    let board = deal.board();
    let (flop, later) = board.split_at(3);
    let (turn, river) = later.split_at(1);
    match rounds {
        0 => {}
        1 => put_street(out, flop),
        2 => {
            put_street(out, flop);
            put_street(out, turn);
        }
        _ => {
            put_street(out, flop);
            put_street(out, turn);
            put_street(out, river);
        }
    }
}

/// Appends `/` and the cards of a round.
fn put_street(out: &mut Vec<u8>, cards: &[Card])
    requires { vec_len out.old + (2 * length cards.now + 1) ≤ vec_capacity out.old }
    ensures items { out.new.items ≡ out.old.items ++ (47 ∷ cards_text cards.now) }
    ensures len { vec_len out.new ≡ vec_len out.old + (2 * length cards.now + 1) }
    ensures capacity { vec_capacity out.old ≤ vec_capacity out.new }
{
    put(out, b"/");
    put_cards(out, cards);
}
