ghost use Rattle.std.specs.Prelude.{◌≡◌, ℕ, ◌+◌, ◌*◌, ◌/◌, ◌<◌, ◌≤◌, ◌+ℤ◌, ◌*ℤ◌, pos, length, slice_index_or, replicate};
ghost use Rattle.std.specs.List.{All};
ghost use Rattle.side_pots.specs.Pots.{total};
ghost use Rattle.match_log.specs.Payoffs.{IsWithin, most_payoff};

use card_core::limits::PLAYERS;

/// What each position is paid over some deals together, in chips, and how many deals these are.
///
/// 64 bits hold it: no payoff is further from 0 than ten stacks of 2147483647 chips. What some win others lose.
#[derive(Drop)]
pub(crate) struct Sums {
    amounts: [i64; PLAYERS],
    deals: u32,
    ghost within: { All (IsWithin (most_payoff * deals)) amounts },
    ghost places: { length amounts ≡ 10 },
    ghost few: { deals ≤ 10000 },
    ghost zero_sum: { total amounts ≡ pos 0 },
}

impl Sums {
    /// Of no deal.
    pub(crate) fn new() -> Sums
        ensures amounts { result.amounts ≡ replicate 10 (pos 0) }
        ensures deals { result.deals ≡ 0 }
    {
        Sums {
            amounts: [0; PLAYERS],
            deals: 0,
        }
    }

    /// Adds what one more deal pays.
    pub(crate) fn add(&mut self, payoffs: &[i64])
        requires few { length payoffs.now ≤ 10 }
        requires within { All (IsWithin most_payoff) payoffs.now }
        requires zero_sum { total payoffs.now ≡ pos 0 }
        requires more { self.old.deals < 10000 }
        ensures deals { self.new.deals ≡ self.old.deals + 1 }
        ensures each { (position : ℕ) → position < 10 → slice_index_or self.new.amounts position (pos 0) ≡ slice_index_or self.old.amounts position (pos 0) +ℤ slice_index_or payoffs.now position (pos 0) }
    {
        let mut amounts = self.amounts;
        for position in 0..payoffs.len() {
            amounts[position] += payoffs[position];
        }
        self.amounts = amounts;
        self.deals += 1;
    }

    /// The mean of each position's amount over the deals, each as likely, where a chip has so many parts.
    pub(crate) fn means(&self, parts: u32) -> [i64; PLAYERS]
        requires some { 0 < self.now.deals }
        requires parts { parts ≤ 2000 }
        ensures each { (position : ℕ) → position < 10 → slice_index_or result position (pos 0) ≡ pos (parts / self.now.deals) *ℤ slice_index_or self.now.amounts position (pos 0) }
        ensures within { All (IsWithin (most_payoff * 2000)) result }
        ensures places { length result ≡ 10 }
        ensures zero_sum { total result ≡ pos 0 }
    {
        let weight = i64::from(parts / self.deals);
        let mut means = self.amounts;
        for position in 0..PLAYERS {
            means[position] = weight * self.amounts[position];
        }
        means
    }
}
