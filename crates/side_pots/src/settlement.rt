ghost use Rattle.std.specs.Prelude.{◌≡◌, ◌-◌, ◌-ℤ◌, ◌^◌, max, map, replicate, ◌<◌, ◌≤◌, ◌≢◌, ◌≤ℤ◌, ℕ, true, false, length, pos, neg_ℤ, slice_index, slice_index_or};
ghost use Rattle.std.specs.List.{All, fold, range_with_len, sum};
ghost use Rattle.side_pots.specs.Amounts.{IsAmount};
ghost use Rattle.side_pots.specs.Pots.{payoff, payoffs, total};

use crate::amounts::{chips_between, next_amount};
use crate::shares::with_shares;
use crate::winners::winners;
use arrayvec::ArrayVec;
use card_core::limits::PLAYERS;
use hand_rank::HandValue;

/// The payoffs of a finished hand by position, in whole chips: what each player gets of the pots less
/// what he put in.
///
/// `spent` is what each player put in over the whole hand, and `values` what his cards are worth at the
/// showdown (of a folded player, or where all others folded, any value does). Levels that the same
/// unfolded players reached are one pot. Each pot is shared among its best hands in whole chips; odd
/// chips go one each to the winners in order of position from 0 (after the Poker TDA's rule that the odd
/// chip goes to the first winning seat left of the button).
///
/// For two to ten players, amounts up to 2147483647, and a greatest amount that an unfolded player put
/// in. The payoffs sum to zero, and nobody loses more than he put in.
pub fn settle(spent: &[u32], folded: &[bool], values: &[HandValue]) -> ArrayVec<i64, PLAYERS>
    requires two_players { 2 ≤ length spent.now }
    requires ten_players { length spent.now ≤ 10 }
    requires folded { length folded.now ≡ length spent.now }
    requires values { length values.now ≡ length spent.now }
    requires amounts { All (λ amount. amount ≤ 2147483647) spent.now }
    requires greatest { IsAmount spent.now folded.now (fold max 0 spent.now) }
    ensures payoffs { result.items ≡ payoffs spent.now folded.now values.now }
    ensures zero_sum { total result.items ≡ pos 0 }
    ensures no_more_than_spent { (position : ℕ) → position < length spent.now
        → neg_ℤ (pos (slice_index spent.now position)) ≤ℤ payoff spent.now folded.now values.now position }

    // Where all others have folded, a player's payoff is what they put in.
    ensures all_to_the_last { (position : ℕ) → slice_index_or folded.now position true ≡ false
        → ((other : ℕ) → other ≢ position → slice_index_or folded.now other true ≡ true)
        → payoff spent.now folded.now values.now position ≡ pos (sum spent.now - slice_index spent.now position) }
{
    let mut won = nothing_won(spent.len());
    let mut below = 0;
    while let Some(top) = next_amount(spent, folded, below) {
        let pot = chips_between(spent, below, top);
        let winners = winners(spent, folded, values, top);
        won = with_shares(won.as_slice(), pot, winners.as_slice());
        below = top;
    }
    less_spent(won.as_slice(), spent)
}

/// Nothing, for each of the players.
fn nothing_won(players: usize) -> ArrayVec<u64, PLAYERS>
    requires { players ≤ 10 }
    ensures { result.items ≡ replicate players 0 }
{
    let mut won = ArrayVec::new();
    for _player in 0..players {
        won.push(0);
    }
    won
}

/// What each player won less what he put in.
fn less_spent(won: &[u64], spent: &[u32]) -> ArrayVec<i64, PLAYERS>
    requires players { length spent.now ≤ 10 }
    requires one_length { length won.now ≡ length spent.now }
    requires fits { sum won.now < 2 ^ 63 }
    ensures { result.items ≡ map
        (λ position. pos (slice_index won.now position) -ℤ pos (slice_index spent.now position))
        (range_with_len 0 (length spent.now)) }
{
    let mut payoffs: ArrayVec<i64, PLAYERS> = ArrayVec::new();
    for position in 0..spent.len() {
        payoffs.push(won[position] as i64 - i64::from(spent[position]));
    }
    payoffs
}
