ghost use Rattle.std.specs.Prelude.{◌≡◌};
ghost use Rattle.luck.specs.CardList.{cards_of};
ghost use Rattle.luck.specs.Left.{left_of};

use crate::card_list::{CardList, PACK};
use card_core::{Card, has_number};

/// The cards of the pack that aren't among these, in order of their numbers.
pub(crate) fn left_cards(known: &[Card]) -> CardList
    ensures { cards_of result ≡ left_of known.now }
{
    let mut left = CardList::new();
    for number in 0..PACK as u8 {
        if !has_number(known, number) {
            left = left.with(Card::from_number(number));
        }
    }
    left
}
