ghost use Rattle.std.specs.Prelude.{◌≡◌, ◌<◌, ◌≤◌, pos, length, take};
ghost use Rattle.std.specs.List.{All};
ghost use Rattle.card_core.specs.Deal.{player_count};
ghost use Rattle.betting.specs.Betting.{history};
ghost use Rattle.betting.specs.Turns.{max_spent};
ghost use Rattle.side_pots.specs.Pots.{total};
ghost use Rattle.match_log.specs.BestFive.{best_worth};
ghost use Rattle.match_log.specs.Payoffs.{IsWithin, most_payoff, seven_of, values_of, amounts_of, folds_of};
ghost use Rattle.luck.specs.Means.{pay};

use arrayvec::ArrayVec;
use betting::{Play, laws};
use card_core::Deal;
use card_core::limits::PLAYERS;
use hand_rank::{HandValue, best_of_seven};
use side_pots::settle;
use std::marker::Model;

/// What each position has in, in chips over the whole hand, and which have folded.
#[derive(Drop)]
pub(crate) struct Stakes {
    spent: ArrayVec<u32, PLAYERS>,
    folded: ArrayVec<bool, PLAYERS>,
}

impl Model for Stakes {
    ghost use Rattle.luck.specs.Stakes.{AtStake};

    ghost Value = { AtStake };

    ghost use Rattle.luck.specs.StakesInside.{at_stake, IsKept};

    ghost view = { at_stake };

    ghost invariant = { IsKept };
}

impl Stakes {
    /// Those of a play.
    pub(crate) fn of(play: &Play) -> Stakes
        ensures spent { result.spent ≡ amounts_of play.now.game play.now.past }
        ensures folded { result.folded ≡ folds_of play.now.game play.now.past }
    {
        let game = play.game();
        game.limits();
        laws::somebody_has_the_greatest_amount();
        let _actions = play.actions();
        Stakes {
            spent: amounts(play),
            folded: folds(play),
        }
    }

    /// How many players there are, 2 to 10.
    pub(crate) fn players(&self) -> usize
        ensures value { result ≡ length self.now.spent }
        ensures least { 2 ≤ result }
        ensures most { result ≤ 10 }
    {
        self.spent.len()
    }

    /// What each position gets of the pots less what it put in, if this is the deal.
    pub(crate) fn pay(&self, deal: &Deal) -> ArrayVec<i64, PLAYERS>
        requires { player_count deal.now ≡ length self.now.spent }
        ensures value { result.items ≡ pay self.now.spent self.now.folded deal.now }
        ensures within { All (IsWithin most_payoff) result.items }
        ensures zero_sum { total result.items ≡ pos 0 }
    {
        let values = values(deal);
        settle(
            self.spent.as_slice(),
            self.folded.as_slice(),
            &values[..deal.players()],
        )
    }
}

/// What each position has put in.
fn amounts(play: &Play) -> ArrayVec<u32, PLAYERS>
    ensures value { result.items ≡ amounts_of play.now.game play.now.past }
    ensures most { All (λ amount. amount ≤ 2147483647) result.items }
    ensures greatest { All (λ amount. amount ≤ max_spent play.now.game (history play.now)) result.items }
{
    play.game().limits();
    let mut amounts = ArrayVec::new();
    for position in 0..play.players() {
        amounts.push(play.spent(position));
    }
    amounts
}

/// Which positions have folded.
fn folds(play: &Play) -> ArrayVec<bool, PLAYERS>
    ensures { result.items ≡ folds_of play.now.game play.now.past }
{
    let mut folds = ArrayVec::new();
    for position in 0..play.players() {
        folds.push(play.folded(position));
    }
    folds
}

/// What each position's best five are worth; behind the last position stands what the first one's are.
fn values(deal: &Deal) -> [HandValue; PLAYERS]
    ensures { take (player_count deal.now) result ≡ values_of (player_count deal.now) deal.now }
{
    let players = deal.players();
    let mut values = [value(deal, 0); PLAYERS];
    for position in 1..players {
        values[position] = value(deal, position);
    }
    values
}

/// What a position's best five are worth.
fn value(deal: &Deal, position: usize) -> HandValue
    requires { position < player_count deal.now }
    ensures { result ≡ best_worth (seven_of deal.now position) }
{
    best_of_seven(&deal.seven(position))
}
