ghost use Rattle.std.specs.Prelude.{◌≡◌, ℕ, ◌+◌, ◌*◌, ◌<◌, ◌≤◌, ◌+ℤ◌, ◌-ℤ◌, pos, length, slice_index_or};
ghost use Rattle.std.specs.List.{All};
ghost use Rattle.card_core.specs.Deal.{IsDeal, player_count};
ghost use Rattle.side_pots.specs.Pots.{total};
ghost use Rattle.betting.specs.Betting.{history};
ghost use Rattle.betting.specs.Rounds.{current_round};
ghost use Rattle.match_log.specs.Payoffs.{IsWithin, most_payoff};
ghost use Rattle.luck.specs.CardList.{cards_of};
ghost use Rattle.luck.specs.Deals.{known_at};
ghost use Rattle.luck.specs.Lucks.{deals_at, luck_of, lucks_of};
ghost use Rattle.luck.specs.Means.{parts_of, mean_of};
ghost use Rattle.luck.specs.Sums.{IsSumOver};

use crate::card_list::CardList;
use crate::completions::add_completions;
use crate::drawing::{add_drawn, generator};
use crate::left_cards::left_cards;
use crate::stakes::Stakes;
use crate::streets::before_street;
use crate::sums::Sums;
use betting::Play;
use card_core::Deal;
use card_core::limits::PLAYERS;

/// How many cards of the board are dealt by each street.
const BOARD_CARDS: [usize; 4] = [0, 3, 4, 5];

/// The luck of each position in a hand, in parts of a chip: how far its streets moved what it could expect. What some
/// gain by luck others lose.
pub(crate) fn hand_luck(key: &[u8; 32], number: u32, play: &Play, deal: &Deal) -> [i64; PLAYERS]
    requires { IsDeal play.now.game.players deal.now }
    ensures each { (position : ℕ) → position < 10 → slice_index_or result position (pos 0) ≡ luck_of key.now play.now.game number (record { deal = deal.now; past = play.now.past }) position }
    ensures zero_sum { total (lucks_of key.now play.now.game number (record { deal = deal.now; past = play.now.past })) ≡ pos 0 }
    ensures within { All (IsWithin (most_payoff * 12000)) result }
    ensures places { length result ≡ 10 }
{
    let _players = play.players();
    let mut lucks = [0; PLAYERS];
    for street in 0..play.round() {
        let stakes = Stakes::of(&before_street(play, street + 1));
        let before = means(key, number, &stakes, deal, street);
        let behind = means(key, number, &stakes, deal, street + 1);
        add_moved(&mut lucks, &before, &behind);
    }
    lucks
}

/// What each position may expect once so many streets are dealt, in parts of a chip.
fn means(key: &[u8; 32], number: u32, stakes: &Stakes, deal: &Deal, street: usize) -> [i64; PLAYERS]
    requires dealt { IsDeal (length stakes.now.spent) deal.now }
    requires street { street ≤ 3 }
    ensures each { (position : ℕ) → position < 10 → slice_index_or result position (pos 0) ≡ mean_of stakes.now.spent stakes.now.folded position (deals_at key.now number (length stakes.now.spent) deal.now street) }
    ensures within { All (IsWithin (most_payoff * 2000)) result }
    ensures places { length result ≡ 10 }
    ensures zero_sum { total result ≡ pos 0 }
{
    counted(key, number, stakes, deal, street).means(parts(stakes.players()))
}

/// What each position is paid together over the deals that are counted once so many streets are dealt.
fn counted(key: &[u8; 32], number: u32, stakes: &Stakes, deal: &Deal, street: usize) -> Sums
    requires dealt { IsDeal (length stakes.now.spent) deal.now }
    requires street { street ≤ 3 }
    ensures sum { IsSumOver stakes.now.spent stakes.now.folded (deals_at key.now number (length stakes.now.spent) deal.now street) result }
    ensures some { 0 < result.deals }
{
    let players = stakes.players();
    let known = known_cards(deal, street);
    let mut sums = Sums::new();
    if street == 0 {
        let mut words = generator(key, number);
        add_drawn(&mut sums, stakes, &known, &mut words, parts(players));
        return sums;
    }
    let left = left_cards(known.as_slice());
    add_completions(&mut sums, stakes, known, left.as_slice());
    sums
}

/// In how many parts a chip is counted in a game of so many players: in how many ways turn and river can follow a flop.
pub(crate) fn parts(players: usize) -> u32
    requires least { 2 ≤ players }
    requires most { players ≤ 10 }
    ensures value { result ≡ parts_of players }
    ensures least_parts { 1 ≤ result }
    ensures most_parts { result ≤ 2000 }
{
    (49 - 2 * players as u32) * (48 - 2 * players as u32)
}

/// The cards that are known once so many streets are dealt: all hole cards, and the board so far.
fn known_cards(deal: &Deal, street: usize) -> CardList
    requires { street ≤ 3 }
    ensures { cards_of result ≡ known_at (player_count deal.now) deal.now street }
{
    let mut known = CardList::new();
    for card in &deal.cards()[..2 * deal.players() + BOARD_CARDS[street]] {
        known = known.with(*card);
    }
    known
}

/// Adds how far one more street moved what each position could expect.
fn add_moved(lucks: &mut [i64; PLAYERS], before: &[i64; PLAYERS], behind: &[i64; PLAYERS])
    requires lucks { All (IsWithin (most_payoff * 8000)) lucks.old }
    requires before { All (IsWithin (most_payoff * 2000)) before.now }
    requires behind { All (IsWithin (most_payoff * 2000)) behind.now }
    ensures places { length lucks.new ≡ 10 }
    ensures total { total lucks.new ≡ total lucks.old +ℤ (total behind.now -ℤ total before.now) }
    ensures each { (position : ℕ) → position < 10 → slice_index_or lucks.new position (pos 0) ≡ slice_index_or lucks.old position (pos 0) +ℤ (slice_index_or behind.now position (pos 0) -ℤ slice_index_or before.now position (pos 0)) }
{
    let mut sums = *lucks;
    for position in 0..PLAYERS {
        sums[position] += behind[position] - before[position];
    }
    *lucks = sums;
}
