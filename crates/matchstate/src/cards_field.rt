ghost use Rattle.std.specs.Prelude.{◌≡◌, ℕ, ◌+◌, ◌*◌, ◌<◌, ◌≤◌, ◌++◌, ◌∷◌, [], map, length, vec_len, vec_capacity, List, Some, None, drop, IfSome, IsSomeAnd, if◌then◌else◌};
ghost use Rattle.std.specs.List.{AllByRecursion};
ghost use Rattle.std.specs.Option.{option_to_list};
ghost use Rattle.matchstate.specs.Cards.{cards_text, holes_text, board_text, cards_field, seen_counts, AreOfPack};
ghost use Rattle.matchstate.specs.SeenCards.{hole_in, first_holes, holes_in, boards_in, seen_at, separator, AreCounted};

use crate::bytes::{after_byte, put};
use crate::cards::{put_cards, read_cards};
use crate::seen_cards::SeenCards;
use card_core::Card;
use card_core::limits::PLAYERS;

/// No cards field has more bytes: ten holes with as many `|`, five board cards behind three `/`.
pub(crate) const MOST_CARDS_FIELD: usize = 63;

/// Appends the cards field of a line, for which there is room.
pub(crate) fn put_seen(out: &mut Vec<u8>, players: usize, seen: &SeenCards)
    requires players { players ≤ 10 }
    requires room { vec_len out.old + 63 ≤ vec_capacity out.old }
    ensures items { out.new.items ≡ out.old.items ++ cards_field (holes_in players seen.now) (boards_in seen.now) }
    ensures len { vec_len out.new ≤ vec_len out.old + 63 }
    ensures capacity { vec_capacity out.old ≤ vec_capacity out.new }
{
    put_holes(out, players, &seen.holes);
    put_street(out, &seen.flop);
    put_street(out, &seen.turn);
    put_street(out, &seen.river);
}

/// Appends the hole cards by position, with `|` between them.
fn put_holes(out: &mut Vec<u8>, players: usize, holes: &[Option<[Card; 2]>; PLAYERS])
    requires players { players ≤ 10 }
    requires room { vec_len out.old + 50 ≤ vec_capacity out.old }
    ensures items { out.new.items ≡ out.old.items ++ holes_text (first_holes players holes.now) }
    ensures len { vec_len out.new ≤ vec_len out.old + 50 }
    ensures capacity { vec_capacity out.old ≤ vec_capacity out.new }
{
    for position in 0..players {
        if position > 0 {
            put(out, b"|");
        }
        put_hole(out, &holes[position]);
    }
}

/// Appends the two cards of a position, where they are seen.
fn put_hole(out: &mut Vec<u8>, hole: &Option<[Card; 2]>)
    requires { vec_len out.old + 4 ≤ vec_capacity out.old }
    ensures items { out.new.items ≡ out.old.items ++ cards_text (hole_in hole.now) }
    ensures len { vec_len out.new ≤ vec_len out.old + 4 }
    ensures capacity { vec_capacity out.old ≤ vec_capacity out.new }
{
    if let Some(cards) = hole {
        put_cards(out, cards);
    }
}

/// Appends `/` and the cards of a round, where it has begun.
fn put_street<const N: usize>(out: &mut Vec<u8>, street: &Option<[Card; N]>)
    requires most { N ≤ 3 }
    requires room { vec_len out.old + (2 * N + 1) ≤ vec_capacity out.old }
    ensures items { out.new.items ≡ out.old.items ++ board_text (option_to_list street.now) }
    ensures len { vec_len out.new ≤ vec_len out.old + (2 * N + 1) }
    ensures capacity { vec_capacity out.old ≤ vec_capacity out.new }
{
    if let Some(cards) = street {
        put(out, b"/");
        put_cards(out, cards);
    }
}

/// The cards that a cards field shows: those of the positions that are seen, and the board of so many later
/// rounds. A card may stand there twice.
pub(crate) fn read_seen(
    bytes: &[u8],
    players: usize,
    sees: &[bool; PLAYERS],
    rounds: usize,
) -> Option<SeenCards>
    requires players { players ≤ 10 }
    requires rounds { rounds ≤ 3 }
    ensures found { IfSome result (λ seen. bytes.now ≡ cards_field (holes_in players seen) (boards_in seen)) }
    ensures counted { IfSome result (λ seen. AreCounted players (seen_at sees.now) rounds (holes_in players seen) (boards_in seen)) }
    ensures only { (holes boards : List (List ℕ)) → AreCounted players (seen_at sees.now) rounds holes boards → bytes.now ≡ cards_field holes boards → IsSomeAnd result (λ seen. (holes_in players seen ≡ holes) × (boards_in seen ≡ boards)) }
{
    let (holes, len) = read_holes(bytes, players, sees)?;
    let (_, board) = bytes.split_at(len);
    let (flop, len) = read_street::<3>(board, rounds >= 1)?;
    let (_, later) = board.split_at(len);
    let (turn, len) = read_street::<1>(later, rounds >= 2)?;
    let (_, last) = later.split_at(len);
    let (river, len) = read_street::<1>(last, rounds >= 3)?;
    if len < last.len() {
        return None;
    }
    Some(SeenCards {
        holes,
        flop,
        turn,
        river,
    })
}

/// The hole cards by position, two for each that is seen, and how many bytes they take.
fn read_holes(
    bytes: &[u8],
    players: usize,
    sees: &[bool; PLAYERS],
) -> Option<([Option<[Card; 2]>; PLAYERS], usize)>
    requires { players ≤ 10 }
    ensures within { IfSome result (λ found. found.1 ≤ length bytes.now) }
    ensures found { IfSome result (λ found. bytes.now ≡ holes_text (first_holes players found.0) ++ drop found.1 bytes.now) }
    ensures counts { IfSome result (λ found. map length (first_holes players found.0) ≡ seen_counts players (seen_at sees.now)) }
    ensures pack { IfSome result (λ found. AreOfPack (first_holes players found.0)) }
    ensures only { (holes : List (List ℕ)) (behind : List ℕ) → map length holes ≡ seen_counts players (seen_at sees.now) → AreOfPack holes → bytes.now ≡ holes_text holes ++ behind
        → IsSomeAnd result (λ found. (first_holes players found.0 ≡ holes) × (drop found.1 bytes.now ≡ behind)) }
{
    let mut holes = [None; PLAYERS];
    let mut rest = bytes;
    for position in 0..players {
        let text = after_separator(rest, position)?;
        let hole = read_hole(text, sees[position])?;
        holes[position] = hole;
        let (_, behind) = text.split_at(hole_len(sees[position]));
        rest = behind;
    }
    Some((holes, bytes.len() - rest.len()))
}

/// What stands behind the `|` before a position's hole cards; none stands before the first.
fn after_separator(bytes: &[u8], position: usize) -> Option<&[u8]>
    ensures found { IfSome result (λ rest. bytes.now ≡ separator position ++ rest.now) }
    ensures only { (behind : List ℕ) → bytes.now ≡ separator position ++ behind → IsSomeAnd result (λ rest. rest.now ≡ behind) }
{
    if position == 0 {
        Some(bytes)
    } else {
        after_byte(bytes, b'|')
    }
}

/// How many bytes the hole cards of a position take.
fn hole_len(seen: bool) -> usize
    ensures { result ≡ (if seen then 4 else 0) }
{
    if seen { 4 } else { 0 }
}

/// The two cards of a position that is seen, none of another.
fn read_hole(bytes: &[u8], seen: bool) -> Option<Option<[Card; 2]>>
    ensures found { IfSome result (λ hole. bytes.now ≡ cards_text (hole_in hole) ++ drop (if seen then 4 else 0) bytes.now) }
    ensures count { IfSome result (λ hole. length (hole_in hole) ≡ (if seen then 2 else 0)) }
    ensures within { IfSome result (λ hole. (if seen then 4 else 0) ≤ length bytes.now) }
    ensures pack { IfSome result (λ hole. AllByRecursion (λ card. card < 52) (hole_in hole)) }
    ensures only { (hole behind : List ℕ) → length hole ≡ (if seen then 2 else 0) → AllByRecursion (λ card. card < 52) hole → bytes.now ≡ cards_text hole ++ behind → IsSomeAnd result (λ found. (hole_in found ≡ hole) × (drop (if seen then 4 else 0) bytes.now ≡ behind)) }
{
    if seen {
        let cards = read_cards::<2>(bytes)?;
        Some(Some(cards))
    } else {
        Some(None)
    }
}

/// The cards of a round that has begun, behind a `/`, and how many bytes they take; none of another round.
fn read_street<const N: usize>(bytes: &[u8], begun: bool) -> Option<(Option<[Card; N]>, usize)>
    requires { N ≤ 3 }
    ensures within { IfSome result (λ found. found.1 ≤ length bytes.now) }
    ensures found { IfSome result (λ found. bytes.now ≡ board_text (option_to_list found.0) ++ drop found.1 bytes.now) }
    ensures counts { IfSome result (λ found. map length (option_to_list found.0) ≡ (if begun then N ∷ [] else [])) }
    ensures pack { IfSome result (λ found. AreOfPack (option_to_list found.0)) }
    ensures only { (street : List (List ℕ)) (behind : List ℕ) → map length street ≡ (if begun then N ∷ [] else []) → AreOfPack street → bytes.now ≡ board_text street ++ behind
        → IsSomeAnd result (λ found. (option_to_list found.0 ≡ street) × (drop found.1 bytes.now ≡ behind)) }
{
    if begun {
        let text = after_byte(bytes, b'/')?;
        let cards = read_cards::<N>(text)?;
        Some((Some(cards), 2 * N + 1))
    } else {
        Some((None, 0))
    }
}
