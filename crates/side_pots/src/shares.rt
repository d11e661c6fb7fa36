ghost use Rattle.std.specs.Prelude.{◌≡◌, ◌+◌, ◌/◌, ◌%◌, nat_lt, if◌then◌else◌, ◌<◌, ◌≤◌, ◌^◌, length, map, slice_index};
ghost use Rattle.std.specs.List.{range_with_len, sum};
ghost use Rattle.side_pots.specs.Pots.{share, wins};

use arrayvec::ArrayVec;
use card_core::limits::PLAYERS;

/// What each player has won when the pot is shared too: equal parts in whole chips, and the odd chips
/// one each to the winners in order of position from 0.
pub(crate) fn with_shares(won: &[u64], pot: u64, winners: &[bool]) -> ArrayVec<u64, PLAYERS>
    requires players { length won.now ≤ 10 }
    requires winners { length winners.now ≡ length won.now }
    requires some_winner { 0 < wins winners.now }
    requires fits { sum won.now + pot < 2 ^ 63 }
    ensures shares { result.items ≡ map
        (λ position. slice_index won.now position + share pot winners.now position)
        (range_with_len 0 (length won.now)) }
    ensures total { sum result.items ≡ sum won.now + pot }
{
    let count = winner_count(winners);
    let mut shared: ArrayVec<u64, PLAYERS> = ArrayVec::new();
    let mut winners_before = 0;
    for position in 0..won.len() {
        let mut amount = won[position];
        if winners[position] {
            amount += share_of_winner(pot, count, winners_before);
            winners_before += 1;
        }
        shared.push(amount);
    }
    shared
}

/// What a winner gets of the pot: an equal part, and an odd chip while there are any.
fn share_of_winner(pot: u64, count: u64, winners_before: u64) -> u64
    requires some_winner { 0 < count }
    requires fits { pot < 2 ^ 63 }
    ensures value { result ≡ pot / count + (if nat_lt winners_before (pot % count) then 1 else 0) }
    ensures most { result ≤ pot }
{
    let equal_part = pot / count;
    if winners_before < pot % count {
        equal_part + 1
    } else {
        equal_part
    }
}

/// How many win.
fn winner_count(winners: &[bool]) -> u64
    requires { length winners.now ≤ 10 }
    ensures { result ≡ wins winners.now }
{
    winners.iter().filter(|winner| **winner).count() as u64
}
