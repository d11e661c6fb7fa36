ghost use Rattle.std.specs.Prelude.{◌≡◌, ℕ, ◌+◌, ◌<◌, ◌≤◌, ◌+ℤ◌, pos, length, take, map, replicate, slice_index_or};
ghost use Rattle.std.specs.List.{All, range_with_len};
ghost use Rattle.matchstate.specs.View.{position_of};
ghost use Rattle.match_log.specs.Payoffs.{IsWithin, most_payoff};

use card_core::limits::PLAYERS;
use matchstate::position_of;
use std::marker::Model;

/// What each seat has won and lost in the hands so far, in whole chips.
///
/// 64 bits hold it: no payoff is further from 0 than ten stacks of 2147483647 chips, and a match has at
/// most 10000 hands.
#[derive(Drop)]
pub(crate) struct Score {
    totals: [i64; PLAYERS],
    hands: u32,
}

impl Model for Score {
    ghost use Rattle.match_log.specs.Tally.{Tally};

    ghost Value = { Tally };

    ghost use Rattle.match_log.specs.ScoreInside.{tally_of, IsKept};

    ghost view = { tally_of };

    ghost invariant = { IsKept };
}

impl Score {
    /// The score before the first hand.
    pub(crate) fn new() -> Score
        ensures { result ≡ record { totals = replicate 10 (pos 0); hands = 0 } }
    {
        Score {
            totals: [0; PLAYERS],
            hands: 0,
        }
    }

    /// Of how many hands it is, at most 10000.
    pub(crate) fn hands(&self) -> u32
        ensures value { result ≡ self.now.hands }
        ensures most { result ≤ 10000 }
    {
        self.hands
    }

    /// Adds what a further hand pays by position; with each hand the seats' positions move on by one.
    pub(crate) fn add(&mut self, payoffs: &[i64])
        requires some { 1 ≤ length payoffs.now }
        requires few { length payoffs.now ≤ 10 }
        requires within { All (IsWithin most_payoff) payoffs.now }
        requires more { self.old.hands < 10000 }
        ensures hands { self.new.hands ≡ self.old.hands + 1 }
        ensures totals { take (length payoffs.now) self.new.totals ≡ map (λ seat. slice_index_or self.old.totals seat (pos 0) +ℤ slice_index_or payoffs.now (position_of (length payoffs.now) self.old.hands seat) (pos 0)) (range_with_len 0 (length payoffs.now)) }
    {
        let mut totals = self.totals;
        for seat in 0..payoffs.len() {
            totals[seat] += payoffs[position_of(payoffs.len(), self.hands, seat)];
        }
        self.totals = totals;
        self.hands += 1;
    }

    /// The totals of the first so many seats.
    pub(crate) fn totals(&self, players: usize) -> &[i64]
        requires { players ≤ 10 }
        ensures value { result.now ≡ take players self.now.totals }
        ensures count { length result.now ≡ players }
    {
        &self.totals[..players]
    }
}
