ghost use Rattle.std.specs.Prelude.{◌≡◌, ◌<◌, ◌≤◌};
ghost use Rattle.std.specs.List.{All};

use std::cmp::Ordering;
use std::marker::Model;

/// What five cards are worth: a category from 0 (high card) to 8 (straight flush), and the ranks that
/// decide between hands of one category.
///
/// Contracts see a value as the record `Worth`. Values are ordered by category, then by the ranks one
/// after another; suits break no tie.
#[derive(Clone, Copy, Debug, PartialEq, Eq)]
pub struct HandValue {
    category: u8,
    ranks: [u8; 5],
}

impl Model for HandValue {
    ghost use Rattle.hand_rank.specs.Worth.{Worth};

    ghost Value = { Worth };

    ghost use Rattle.hand_rank.specs.WorthInside.{IsKept};

    ghost view = { λ v. record { category = v.category; ranks = v.ranks } };

    ghost invariant = { IsKept };

    ghost inverse = { λ worth. record { category = worth.category; ranks = worth.ranks } };
}

impl HandValue {
    /// The value of a category and its ranks.
    pub(crate) fn new(category: u8, ranks: [u8; 5]) -> HandValue
        requires category_in_range { category ≤ 8 }
        requires ranks_in_range { All (λ rank. rank < 13) ranks }
        ensures { result ≡ record { category = category; ranks = ranks } }
    {
        HandValue { category, ranks }
    }

    /// The category: 0 high card, 1 pair, 2 two pairs, 3 three of a kind, 4 straight, 5 flush, 6 full
    /// house, 7 four of a kind, 8 straight flush.
    pub fn category(self) -> u8
        ensures value { result ≡ self.category }
        ensures range { result ≤ 8 }
    {
        self.category
    }

    /// The ranks in order of count, then height, each 0 (two) to 12 (ace); for a straight and a straight
    /// flush the top rank and four zeros.
    pub fn ranks(self) -> [u8; 5]
        ensures value { result ≡ self.ranks }
        ensures range { All (λ rank. rank < 13) result }
    {
        self.ranks
    }
}

impl Ord for HandValue {
    ghost use Rattle.std.proofs.Common.{rules};
    ghost use Rattle.std.specs.Cmp.Rules.{comparing};
    ghost use Rattle.hand_rank.specs.Worth.{worth_cmp};

    ghost cmp = { worth_cmp };

    ghost total = { Prim.search (comparing, rules) };

    ghost matches_partial_cmp = { Prim.search (comparing, rules) };

    ghost matches_eq = { Prim.search (comparing, rules) };

    fn cmp(&self, other: &HandValue) -> Ordering {
        let by_category = self.category.cmp(&other.category);
        by_category.then(self.ranks.cmp(&other.ranks))
    }
}

impl PartialOrd for HandValue {
    ghost use Rattle.std.proofs.Common.{rules};
    ghost use Rattle.std.specs.Cmp.{partial_order_from_own_ties};
    ghost use Rattle.std.specs.Cmp.Rules.{comparing};
    ghost use Rattle.std.specs.Ordering.{as_partial_cmp};
    ghost use Rattle.hand_rank.specs.Worth.{worth_cmp};

    ghost partial_cmp = { as_partial_cmp worth_cmp };

    ghost laws = { partial_order_from_own_ties (Prim.search (comparing, rules)) (Prim.search (comparing, rules)) };

    fn partial_cmp(&self, other: &HandValue) -> Option<Ordering> {
        Some(self.cmp(other))
    }
}
