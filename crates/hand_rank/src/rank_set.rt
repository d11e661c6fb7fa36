ghost use Rattle.std.specs.Prelude.{◌≡◌, ℕ, ◌<◌, ◌≤◌, ◌^◌, ◌↔◌, IsTrue, IfSome, MatchOption, bit_and, bit_or};
ghost use Rattle.std.specs.List.{All};
ghost use Rattle.hand_rank.specs.Ranks.{IsHighest, IsWithout, IsRun, IsHighestRun, AreHighest};

/// A set of ranks: a bit for each, from the two's (the lowest) to the ace's.
#[derive(Clone, Copy)]
pub(crate) struct RankSet {
    pub(crate) bits: u16,
    ghost in_range: { bits < 2 ^ 13 },
}

impl RankSet {
    /// The set of no rank.
    pub(crate) fn empty() -> RankSet
        ensures { result.bits ≡ 0 }
    {
        RankSet { bits: 0 }
    }

    /// The set of one rank.
    pub(crate) fn of(rank: u8) -> RankSet
        requires { rank < 13 }
        ensures { result.bits ≡ 2 ^ rank }
    {
        RankSet { bits: 1 << rank }
    }

    /// The ranks that are in both sets.
    pub(crate) fn both(self, other: RankSet) -> RankSet
        ensures { result.bits ≡ bit_and self.bits other.bits }
    {
        RankSet {
            bits: self.bits & other.bits,
        }
    }

    /// The ranks that are in one of the sets.
    pub(crate) fn either(self, other: RankSet) -> RankSet
        ensures { result.bits ≡ bit_or self.bits other.bits }
    {
        RankSet {
            bits: self.bits | other.bits,
        }
    }

    /// The set without a rank.
    pub(crate) fn without(self, rank: u8) -> RankSet
        requires { rank < 13 }
        ensures { IsWithout self.bits rank result.bits }
    {
        RankSet {
            bits: self.bits & !(1 << rank),
        }
    }

    /// Whether the set has no rank.
    pub(crate) fn is_empty(self) -> bool
        ensures { IsTrue result ↔ self.bits ≡ 0 }
    {
        self.bits == 0
    }

    /// The highest rank; of the empty set the two. It keeps the bits to this file.
    pub(crate) fn highest(self) -> u8
        ensures highest { 0 < self.bits → IsHighest self.bits result }
        ensures range { result < 13 }
    {
        highest_bit(self.bits)
    }

    /// The five highest ranks of a set of at least five.
    pub(crate) fn five_highest(self) -> [u8; 5]
        ensures highest { AreHighest self.bits result }
        ensures range { All (λ rank. rank < 13) result }
    {
        let first = self.highest();
        let below_first = self.without(first);
        let second = below_first.highest();
        let below_second = below_first.without(second);
        let third = below_second.highest();
        let below_third = below_second.without(third);
        let fourth = below_third.highest();
        let fifth = below_third.without(fourth).highest();
        [first, second, third, fourth, fifth]
    }

    /// The top of the highest straight, from the ace down to the five: five ranks in a row, where the ace also
    /// stands below the two.
    pub(crate) fn straight_top(self) -> Option<u8>
        ensures value { MatchOption result ((top : ℕ) → IsRun self.bits top → ⊥) (λ top. IsHighestRun self.bits top) }
        ensures range { IfSome result (λ top. top < 13) }
    {
        let ace_below = (self.bits << 1) + (self.bits >> 12);
        let runs = ace_below
            & (ace_below >> 1)
            & (ace_below >> 2)
            & (ace_below >> 3)
            & (ace_below >> 4);
        if runs == 0 {
            None
        } else {
            Some(highest_bit(runs) + 3)
        }
    }
}

/// The place of the highest bit, counted from 0 for the lowest; of no bit at all 0.
fn highest_bit(bits: u16) -> u8
    ensures highest { 0 < bits → IsHighest bits result }
    ensures range { (width : ℕ) → 0 < width → width ≤ 16 → bits < 2 ^ width → result < width }
{
    15u32.saturating_sub(bits.leading_zeros()) as u8
}
