ghost use Rattle.std.specs.Prelude.{◌≡◌, ℕ, ◌++◌, ◌<◌, ◌≤◌, ◌≤ℤ◌, pos, negsuc, length, take, max, fold};
ghost use Rattle.std.specs.List.{All};
ghost use Rattle.card_core.specs.Deal.{IsDeal, player_count};
ghost use Rattle.betting.specs.Betting.{history};
ghost use Rattle.betting.specs.Turns.{max_spent};
ghost use Rattle.slot_log.specs.Hand.{Hand};
ghost use Rattle.match_log.specs.BestFive.{best_worth};
ghost use Rattle.match_log.specs.Payoffs.{seven_of, values_of, amounts_of, folds_of, payoffs_of, IsWithin, most_payoff};

use arrayvec::ArrayVec;
use betting::{Play, laws};
use card_core::Deal;
use card_core::limits::PLAYERS;
use game_def::GameDef;
use hand_rank::{HandValue, best_of_seven};
use side_pots::settle;

/// What each position wins or loses in a finished hand, in whole chips: the pots go to the best five of
/// each player's hole cards and the board.
pub(crate) fn payoffs(game: &GameDef, play: &Play, deal: &Deal) -> ArrayVec<i64, PLAYERS>
    requires same_game { play.now.game ≡ game.now }
    requires dealt { IsDeal game.now.players deal.now }
    ensures value { result.items ≡ payoffs_of game.now (record { deal = deal.now; past = play.now.past }) }
    ensures count { length result.items ≡ game.now.players }
    ensures within { All (IsWithin most_payoff) result.items }
{
    game.limits();
    laws::somebody_has_the_greatest_amount();
    let _actions = play.actions();
    let amounts = amounts(game, play);
    let folds = folds(game, play);
    let values = values(deal);
    settle(
        amounts.as_slice(),
        folds.as_slice(),
        &values[..game.players()],
    )
}

/// What a position's best five are worth.
fn value(deal: &Deal, position: usize) -> HandValue
    requires { position < player_count deal.now }
    ensures { result ≡ best_worth (seven_of deal.now position) }
{
    best_of_seven(&deal.seven(position))
}

/// What each position's best five are worth; behind the last position stands what the first one's are.
fn values(deal: &Deal) -> [HandValue; PLAYERS]
    ensures { take (player_count deal.now) result ≡ values_of (player_count deal.now) deal.now }
{
    let players = deal.players();
    let mut values = [value(deal, 0); PLAYERS];
    for position in 1..players {
        values[position] = value(deal, position);
    }
    values
}

/// What each position has put in.
fn amounts(game: &GameDef, play: &Play) -> ArrayVec<u32, PLAYERS>
    requires { play.now.game ≡ game.now }
    ensures value { result.items ≡ amounts_of game.now play.now.past }
    ensures most { All (λ amount. amount ≤ 2147483647) result.items }
    ensures greatest { All (λ amount. amount ≤ max_spent game.now (history play.now)) result.items }
{
    game.limits();
    let mut amounts = ArrayVec::new();
    for position in 0..game.players() {
        amounts.push(play.spent(position));
    }
    amounts
}

/// Which positions have folded.
fn folds(game: &GameDef, play: &Play) -> ArrayVec<bool, PLAYERS>
    requires { play.now.game ≡ game.now }
    ensures { result.items ≡ folds_of game.now play.now.past }
{
    let mut folds = ArrayVec::new();
    for position in 0..game.players() {
        folds.push(play.folded(position));
    }
    folds
}
