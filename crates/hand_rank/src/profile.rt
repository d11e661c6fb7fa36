ghost use Rattle.std.specs.Prelude.{◌≡◌, ℕ, ◌<◌, List, [], ◌∷◌, ◌++◌, MatchOption};
ghost use Rattle.std.specs.List.{All};
ghost use Rattle.card_core.specs.Card.{rank_of};
ghost use Rattle.hand_rank.specs.Best.{IsBestOf};
ghost use Rattle.hand_rank.specs.Five.{rank_count};
ghost use Rattle.hand_rank.specs.Ranks.{IsAtLeast};
ghost use Rattle.hand_rank.specs.Profile.{IsSeven, IsProfileOf, IsNoneAbove};

use crate::five::{FOUR_OF_A_KIND, FULL_HOUSE, HIGH_CARD, PAIR, THREE_OF_A_KIND, TWO_PAIRS};
use crate::hand_value::HandValue;
use crate::rank_set::RankSet;
use card_core::Card;

/// Which ranks come at least once, twice, three times and four times among seven cards.
#[derive(Clone, Copy)]
pub(crate) struct Profile {
    pub(crate) once: RankSet,
    pub(crate) twice: RankSet,
    pub(crate) thrice: RankSet,
    pub(crate) four: RankSet,
}

impl Profile {
    /// The profile of cards.
    pub(crate) fn of(cards: &[Card; 7]) -> Profile
        ensures profile { IsProfileOf result cards.now }
        ensures ranks { All (λ card. rank_of card < 13) cards.now }
    {
        let none = RankSet::empty();
        let mut profile = Profile {
            once: none,
            twice: none,
            thrice: none,
            four: none,
        };
        for card in cards {
            profile = profile.with(card.rank());
        }
        profile
    }

    /// The profile with one more card, of this rank.
    fn with(self, rank: u8) -> Profile
        requires { rank < 13 }
        ensures { (cards : List ℕ) (card : ℕ) → rank_of card ≡ rank → IsProfileOf self cards → IsProfileOf result (cards ++ card ∷ []) }
    {
        let card = RankSet::of(rank);
        Profile {
            once: self.once.either(card),
            twice: self.twice.either(self.once.both(card)),
            thrice: self.thrice.either(self.twice.both(card)),
            four: self.four.either(self.thrice.both(card)),
        }
    }

    /// The value of four of a kind or a full house, if the cards have one.
    pub(crate) fn four_or_full_house(self) -> Option<HandValue>
        ensures { (cards : List ℕ) → IsSeven cards → IsProfileOf self cards → IsNoneAbove cards 7 → MatchOption result (IsNoneAbove cards 5) (λ value. IsBestOf cards value) }
    {
        if !self.four.is_empty() {
            Some(self.four_of_a_kind())
        } else if self.thrice.is_empty() {
            None
        } else {
            self.full_house()
        }
    }

    /// The value of four of a kind, with the highest other card.
    fn four_of_a_kind(self) -> HandValue
        ensures { (cards : List ℕ) → IsSeven cards → IsProfileOf self cards → IsNoneAbove cards 7 → 0 < self.four.bits → IsBestOf cards result }
    {
        let four = self.four.highest();
        let kicker = self.once.without(four).highest();
        HandValue::new(FOUR_OF_A_KIND, [four, four, four, four, kicker])
    }

    /// The value of a full house, if there is a pair beside the highest three of a kind.
    fn full_house(self) -> Option<HandValue>
        ensures { (cards : List ℕ) → IsSeven cards → IsProfileOf self cards → IsNoneAbove cards 6 → 0 < self.thrice.bits → MatchOption result (IsNoneAbove cards 5) (λ value. IsBestOf cards value) }
    {
        let three = self.thrice.highest();
        let others = self.twice.without(three);
        if others.is_empty() {
            None
        } else {
            let pair = others.highest();
            Some(HandValue::new(FULL_HOUSE, [three, three, three, pair, pair]))
        }
    }

    /// The value of cards with neither a full house nor a flush nor a straight.
    pub(crate) fn below_straight(self) -> HandValue
        ensures { (cards : List ℕ) → IsSeven cards → IsProfileOf self cards → IsNoneAbove cards 3 → IsBestOf cards result }
    {
        if !self.thrice.is_empty() {
            self.three_of_a_kind()
        } else if self.twice.is_empty() {
            HandValue::new(HIGH_CARD, self.once.five_highest())
        } else {
            self.pairs()
        }
    }

    /// The value of three of a kind, with the two highest other cards.
    fn three_of_a_kind(self) -> HandValue
        ensures { (cards : List ℕ) → IsSeven cards → IsProfileOf self cards → IsNoneAbove cards 3 → 0 < self.thrice.bits → IsBestOf cards result }
    {
        let three = self.thrice.highest();
        let others = self.once.without(three);
        let first = others.highest();
        let second = others.without(first).highest();
        HandValue::new(THREE_OF_A_KIND, [three, three, three, first, second])
    }

    /// The value of the two highest pairs with the highest other card, or of the pair with the three
    /// highest other cards.
    fn pairs(self) -> HandValue
        ensures { (cards : List ℕ) → IsSeven cards → IsProfileOf self cards → IsNoneAbove cards 2 → self.thrice.bits ≡ 0 → 0 < self.twice.bits → IsBestOf cards result }
    {
        let high = self.twice.highest();
        let pairs = self.twice.without(high);
        let others = self.once.without(high);
        if pairs.is_empty() {
            let first = others.highest();
            let below_first = others.without(first);
            let second = below_first.highest();
            let third = below_first.without(second).highest();
            HandValue::new(PAIR, [high, high, first, second, third])
        } else {
            let low = pairs.highest();
            let kicker = others.without(low).highest();
            HandValue::new(TWO_PAIRS, [high, high, low, low, kicker])
        }
    }
}
