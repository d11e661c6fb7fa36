ghost use Rattle.std.specs.Prelude.{◌≡◌, ◌+◌, ◌≤◌, ◌<◌, ◌∷◌, ◌++◌, [], length};

use card_core::Card;

/// How many cards the pack has.
pub(crate) const PACK: usize = 52;

/// Some cards in order, at most as many as the pack has.
#[derive(Clone, Copy)]
pub(crate) struct CardList {
    cards: [Card; PACK],
    count: usize,
    ghost within: { count ≤ 52 },
}

impl CardList {
    ghost use Rattle.luck.specs.CardList.{cards_of};

    /// No card.
    pub(crate) fn new() -> CardList
        ensures { cards_of result ≡ [] }
    {
        CardList {
            cards: [Card::from_number(0); PACK],
            count: 0,
        }
    }

    /// The same cards and another one behind them.
    pub(crate) fn with(mut self, card: Card) -> CardList
        requires { length (cards_of self) < 52 }
        ensures { cards_of result ≡ cards_of self ++ card ∷ [] }
    {
        self.cards[self.count] = card;
        self.count += 1;
        self
    }

    /// The cards.
    pub(crate) fn as_slice(&self) -> &[Card]
        ensures value { result.now ≡ cards_of self.now }
        ensures most { length result.now ≤ 52 }
    {
        &self.cards[..self.count]
    }
}
