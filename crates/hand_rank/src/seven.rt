ghost use Rattle.std.specs.Prelude.{◌≡◌, ℕ, ◌<◌, ◌≤◌, List, [], ◌∷◌, nat_eq, nat_le};
ghost use Rattle.std.specs.List.{IsDistinct, find};
ghost use Rattle.hand_rank.specs.Best.{IsBestOf};
ghost use Rattle.hand_rank.specs.Five.{suit_count as suit_total};
ghost use Rattle.hand_rank.specs.Ranks.{IsAtLeast};
ghost use Rattle.hand_rank.specs.Profile.{IsSeven, IsProfileOf, suited_count};

use crate::five::{FLUSH, STRAIGHT, STRAIGHT_FLUSH, SUITS, suit_count};
use crate::hand_value::HandValue;
use crate::profile::Profile;
use crate::rank_set::RankSet;
use card_core::Card;

/// The value of the best five of seven distinct cards, a player's two hole cards and the five board cards
/// of Texas hold'em: some five of them have it, and no five of them have a greater one. Suits break no
/// tie, and the order of the cards is of no account.
pub fn best_of_seven(cards: &[Card; 7]) -> HandValue
    requires { IsDistinct nat_eq cards.now }
    ensures { IsBestOf cards.now result }
{
    let profile = Profile::of(cards);
    match flush_suit(cards) {
        Some(suit) => best_with_flush(profile, suited_ranks(cards, suit)),
        None => best_without_flush(profile),
    }
}

/// The suit that five or more of the cards have, if there is one.
fn flush_suit(cards: &[Card; 7]) -> Option<u8>
    ensures { result ≡ find (λ suit. nat_le 5 (suit_total cards.now suit)) (0 ∷ 1 ∷ 2 ∷ 3 ∷ []) }
{
    SUITS
        .iter()
        .copied()
        .find(|suit| suit_count(cards, *suit) >= 5)
}

/// The ranks of the cards of one suit.
fn suited_ranks(cards: &[Card; 7], suit: u8) -> RankSet
    ensures { IsAtLeast result.bits 1 (suited_count cards.now suit) }
{
    let mut ranks = RankSet::empty();
    for card in cards {
        if card.suit() == suit {
            ranks = ranks.either(RankSet::of(card.rank()));
        }
    }
    ranks
}

/// The value of the best five of cards that have five or more of the suit whose ranks these are.
fn best_with_flush(profile: Profile, suited: RankSet) -> HandValue
    ensures { (cards : List ℕ) (suit : ℕ) → IsSeven cards → IsProfileOf profile cards → suit < 4 → 5 ≤ suit_total cards suit → IsAtLeast suited.bits 1 (suited_count cards suit) → IsBestOf cards result }
{
    match suited.straight_top() {
        Some(top) => HandValue::new(STRAIGHT_FLUSH, [top, 0, 0, 0, 0]),
        None => match profile.four_or_full_house() {
            Some(value) => value,
            None => HandValue::new(FLUSH, suited.five_highest()),
        },
    }
}

/// The value of the best five of cards that have no five of one suit.
fn best_without_flush(profile: Profile) -> HandValue
    ensures { (cards : List ℕ) → IsSeven cards → IsProfileOf profile cards → ((suit : ℕ) → suit < 4 → suit_total cards suit < 5) → IsBestOf cards result }
{
    match profile.four_or_full_house() {
        Some(value) => value,
        None => match profile.once.straight_top() {
            Some(top) => HandValue::new(STRAIGHT, [top, 0, 0, 0, 0]),
            None => profile.below_straight(),
        },
    }
}
