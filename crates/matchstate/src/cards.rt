ghost use Rattle.std.specs.Prelude.{◌≡◌, ℕ, ◌<◌, ◌∷◌, ◌++◌, List, Some, ◌≤◌, ◌*◌, drop, IfSome, IsSomeAnd, length, ◌+◌, decimal, vec_len, vec_capacity};
ghost use Rattle.std.specs.List.{AllByRecursion};
ghost use Rattle.card_core.specs.Card.{text_of};
ghost use Rattle.matchstate.specs.Cards.{cards_text};

use crate::bytes::put;
use card_core::Card;

/// Appends cards by their two letters each, as `TdAs`, for which there is room.
pub fn put_cards(out: &mut Vec<u8>, cards: &[Card])
    requires { vec_len out.old + 2 * length cards.now ≤ vec_capacity out.old }
    ensures items { out.new.items ≡ out.old.items ++ cards_text cards.now }
    ensures len { vec_len out.new ≡ vec_len out.old + 2 * length cards.now }
    ensures capacity { vec_capacity out.old ≤ vec_capacity out.new }
{
    for card in cards {
        put(out, &card.text());
    }
}

/// The card in front, which takes two bytes.
fn read_card(bytes: &[u8]) -> Option<Card>
    ensures found { IfSome result (λ card. (bytes.now ≡ text_of card ++ drop 2 bytes.now) × (card < 52)) }
    ensures only { (card : ℕ) (behind : List ℕ) → card < 52 → bytes.now ≡ text_of card ++ behind → result ≡ Some card }
{
    match bytes {
        [rank, suit, ..] => Card::from_text([*rank, *suit]),
        _ => None,
    }
}

/// The cards in front, each of which takes two bytes.
pub(crate) fn read_cards<const N: usize>(bytes: &[u8]) -> Option<[Card; N]>
    requires { N ≤ 3 }
    ensures found { IfSome result (λ cards. (bytes.now ≡ cards_text cards ++ drop (2 * N) bytes.now) × AllByRecursion (λ card. card < 52) cards × (length cards ≡ N)) }
    ensures only { (cards behind : List ℕ) → length cards ≡ N → AllByRecursion (λ card. card < 52) cards → bytes.now ≡ cards_text cards ++ behind → result ≡ Some cards }
{
    let mut cards = [Card::from_number(0); N];
    let mut rest = bytes;
    for place in 0..N {
        let card = read_card(rest)?;
        cards[place] = card;
        let (_, behind) = rest.split_at(2);
        rest = behind;
    }
    Some(cards)
}
