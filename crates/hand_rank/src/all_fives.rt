ghost use Rattle.std.specs.Prelude.{◌≡◌, ℕ, ◌+◌, ◌<◌, ◌≤◌, ◌∷◌, length, nat_eq, slice_index};
ghost use Rattle.std.specs.List.{IsDistinct};
ghost use Rattle.std.specs.List.Sorted.{IsPermutation};
ghost use Rattle.hand_rank.specs.Best.{IsBestOf, IsBestLeavingOut};

use crate::five::value_of_slice;
use crate::hand_value::HandValue;
use card_core::Card;

/// The same as `best_of_seven`, from the values of all fives: the plain body, to compare with.
///
/// Some five of the seven distinct cards have the value, and no five of them have a greater one. Suits break
/// no tie, and the order of the cards is of no account.
pub fn best_of_all_fives(cards: &[Card; 7]) -> HandValue
    requires { IsDistinct nat_eq cards.now }
    ensures { IsBestOf cards.now result }
{
    let mut best = best_of_six(&without::<6>(cards, 0), 0);
    for left_out in 1..6 {
        best = best.max(best_of_six(&without::<6>(cards, left_out), left_out));
    }
    best
}

/// The value of the best of those fives of six cards that leave out a card from a place on.
fn best_of_six(cards: &[Card], from: usize) -> HandValue
    requires count { length cards.now ≡ 6 }
    requires place { from ≤ 5 }
    ensures { IsBestLeavingOut cards.now from 6 result }
{
    let mut best = value_of_slice(&without::<5>(cards, from));
    for left_out in from + 1..6 {
        best = best.max(value_of_slice(&without::<5>(cards, left_out)));
    }
    best
}

/// The cards without the one at a place, where the last one then stands.
fn without<const N: usize>(cards: &[Card], left_out: usize) -> [Card; N]
    requires count { length cards.now ≡ N + 1 }
    requires place { left_out ≤ N }
    ensures others { IsPermutation (slice_index cards.now left_out ∷ result) cards.now }
    ensures before { (place : ℕ) → place < left_out → slice_index result place ≡ slice_index cards.now place }
{
    let mut kept = [cards[N]; N];
    kept.copy_from_slice(&cards[..N]);
    if left_out < N {
        kept[left_out] = cards[N];
    }
    kept
}
