ghost use Rattle.std.specs.Prelude.{◌≡◌, ℕ, ◌<◌, ◌≤◌, take, length, true, false, nat_eq};
ghost use Rattle.std.specs.List.{IsDistinct, list_any};

use card_core::{Card, has_number};

/// Puts unused cards at the places from one on up to an end, in rising order: those in front stay.
pub(crate) fn fill_up(cards: &mut [Card], count: usize, end: usize)
    requires front { count ≤ end }
    requires within { end ≤ length cards.old }
    requires few { length cards.old ≤ 52 }
    ensures kept { take count cards.new ≡ take count cards.old }
    ensures distinct { IsDistinct nat_eq (take count cards.old) → IsDistinct nat_eq (take end cards.new) }
{
    let mut least = 0;
    for place in count..end {
        let number = unused_number(&cards[..place], least);
        cards[place] = Card::from_number(number);
        least = number + 1;
    }
}

/// The first number of a card, from one on, that none of fewer than 52 cards has; they have each number before that one.
fn unused_number(cards: &[Card], least: u8) -> u8
    requires few { length cards.now < 52 }
    requires used { (number : ℕ) → number < least → list_any (λ card. nat_eq number card) cards.now ≡ true }
    ensures within { result < 52 }
    ensures unused { list_any (λ card. nat_eq result card) cards.now ≡ false }
    ensures used { (number : ℕ) → number < result → list_any (λ card. nat_eq number card) cards.now ≡ true }
{
    for number in least..52 {
        if !has_number(cards, number) {
            return number;
        }
    }
    unreachable!()
}
