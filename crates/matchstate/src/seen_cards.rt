ghost use Rattle.std.specs.Prelude.{◌≡◌, ℕ, ◌+◌, ◌*◌, ◌<◌, ◌≤◌, ◌++◌, [], map, take, length, unwrap_or, IsTrue, ◌↔◌};
ghost use Rattle.std.specs.List.{concat};
ghost use Rattle.matchstate.specs.Cards.{all_cards};
ghost use Rattle.matchstate.specs.SeenCards.{hole_in, holes_in, boards_in};

use crate::comparison::are_same_cards;
use card_core::Card;
use card_core::limits::{CARDS, PLAYERS};

/// The cards that a line shows: two for each position that is seen, and three, one and one for the later
/// rounds that have begun.
#[derive(Clone, Copy)]
pub(crate) struct SeenCards {
    pub(crate) holes: [Option<[Card; 2]>; PLAYERS],
    pub(crate) flop: Option<[Card; 3]>,
    pub(crate) turn: Option<[Card; 1]>,
    pub(crate) river: Option<[Card; 1]>,
}

/// All cards that are seen, in the order of a line, and how many.
pub(crate) fn gather(seen: &SeenCards, players: usize) -> ([Card; CARDS], usize)
    requires { players ≤ 10 }
    ensures value { take result.1 result.0 ≡ all_cards (holes_in players seen.now) (boards_in seen.now) }
    ensures count { result.1 ≤ 2 * players + 5 }
{
    let mut cards = [Card::from_number(0); CARDS];
    let holes = gather_holes(&mut cards, players, &seen.holes);
    let flop = add(&mut cards, holes, &seen.flop);
    let turn = add(&mut cards, flop, &seen.turn);
    let count = add(&mut cards, turn, &seen.river);
    (cards, count)
}

/// Whether the same cards are seen, one after another in the order of a line.
pub(crate) fn are_same_seen(first: &SeenCards, second: &SeenCards, players: usize) -> bool
    requires { players ≤ 10 }
    ensures { IsTrue result ↔ all_cards (holes_in players first.now) (boards_in first.now) ≡ all_cards (holes_in players second.now) (boards_in second.now) }
{
    let (cards, count) = gather(first, players);
    let (others, other_count) = gather(second, players);
    are_same_cards(&cards[..count], &others[..other_count])
}

/// The board cards that are seen, in the order of a line, and how many.
pub(crate) fn gather_board(seen: &SeenCards) -> ([Card; 5], usize)
    ensures value { take result.1 result.0 ≡ concat (boards_in seen.now) }
    ensures count { result.1 ≤ 5 }
{
    let mut cards = [Card::from_number(0); 5];
    let flop = add(&mut cards, 0, &seen.flop);
    let turn = add(&mut cards, flop, &seen.turn);
    let count = add(&mut cards, turn, &seen.river);
    (cards, count)
}

/// Puts the hole cards that are seen in front, and says how many they are.
fn gather_holes(cards: &mut [Card], players: usize, holes: &[Option<[Card; 2]>; PLAYERS]) -> usize
    requires players { players ≤ 10 }
    requires room { length cards.old ≡ 25 }
    ensures value { take result cards.new ≡ concat (map hole_in (take players holes.now)) }
    ensures count { result ≤ 2 * players }
{
    let mut count = 0;
    for position in 0..players {
        count = add(cards, count, &holes[position]);
    }
    count
}

/// Puts the cards of a group, if any, behind those so far, and says how many they are then.
fn add<const N: usize>(cards: &mut [Card], count: usize, group: &Option<[Card; N]>) -> usize
    requires few { N ≤ 3 }
    requires room { count + N ≤ length cards.old }
    ensures cards { take result cards.new ≡ take count cards.old ++ unwrap_or group.now [] }
    ensures count { result ≤ count + N }
{
    match group {
        Some(added) => {
            cards[count..count + N].copy_from_slice(added);
            count + N
        }
        None => count,
    }
}
