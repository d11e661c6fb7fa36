ghost use Rattle.std.specs.Prelude.{◌≡◌, ◌<◌, ◌≤◌, ◌/◌, ◌%◌, ◌≢◌, ℕ, length, slice_index, IfSome, IsNone};
ghost use Rattle.card_core.specs.Card.{rank_of, suit_of, text_of};

use std::marker::Model;

/// The ranks' letters, from the two to the ace.
const RANK_LETTERS: [u8; 13] = *b"23456789TJQKA";

/// The suits' letters: clubs, diamonds, hearts, spades.
const SUIT_LETTERS: [u8; 4] = *b"cdhs";

/// A card of the pack of 52: `4 * rank + suit`, with ranks from 0 (two) to 12 (ace) and suits
/// 0 (clubs), 1 (diamonds), 2 (hearts) and 3 (spades).
///
/// Contracts see a card as that number.
#[derive(Clone, Copy, Debug, PartialEq, Eq)]
pub struct Card {
    number: u8,
}

impl Model for Card {
    ghost Value = { ℕ };

    ghost view = { λ c. c.number };

    ghost invariant = { λ c. c.number < 52 };

    ghost inverse = { λ n. record { number = n } };
}

impl Card {
    /// The card of a number below 52.
    pub fn from_number(number: u8) -> Card
        requires { number < 52 }
        ensures { result ≡ number }
    {
        Card { number }
    }

    /// The card's number, 0 to 51.
    pub fn number(self) -> u8
        ensures value { result ≡ self }
        ensures range { result < 52 }
    {
        self.number
    }

    /// The card's rank, 0 (two) to 12 (ace).
    pub fn rank(self) -> u8
        ensures value { result ≡ rank_of self }
        ensures range { result < 13 }
    {
        self.number / 4
    }

    /// The card's suit: 0 clubs, 1 diamonds, 2 hearts, 3 spades.
    pub fn suit(self) -> u8
        ensures value { result ≡ suit_of self }
        ensures range { result < 4 }
    {
        self.number % 4
    }

    /// The card that two letters name: the rank's of `23456789TJQKA`, then the suit's of `cdhs`, as in
    /// the ACPC protocol 2.0.0. No other two bytes name a card.
    pub fn from_text(text: [u8; 2]) -> Option<Card>
        ensures found { IfSome result (λ card. text ≡ text_of card) }
        ensures range { IfSome result (λ card. card < 52) }
        ensures only { (card : ℕ) → card < 52 → text ≡ text_of card → result ≡ Some card }
    {
        let rank = place_of(text[0], &RANK_LETTERS)?;
        let suit = place_of(text[1], &SUIT_LETTERS)?;
        Some(Card::from_number((4 * rank + suit) as u8))
    }

    /// The two letters that name the card, as `Td` for the ten of diamonds. No other card has them.
    pub fn text(self) -> [u8; 2]
        ensures value { result ≡ text_of self }
        ensures one { (other : ℕ) → other < 52 → text_of other ≡ result → other ≡ self }
    {
        let number = usize::from(self.number);
        [RANK_LETTERS[number / 4], SUIT_LETTERS[number % 4]]
    }
}

/// Where a letter stands in a list of letters, counted from 0.
fn place_of(letter: u8, letters: &[u8]) -> Option<usize>
    ensures found { IfSome result (λ place. (place < length letters.now) × (slice_index letters.now place ≡ letter)) }
    ensures missing { IsNone result → (place : ℕ) → place < length letters.now → slice_index letters.now place ≢ letter }
{
    letters.iter().position(|other| *other == letter)
}
