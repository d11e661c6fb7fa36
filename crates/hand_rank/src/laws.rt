ghost use Rattle.std.specs.Prelude.{◌≡◌, ℕ, List, length};
ghost use Rattle.std.specs.List.Sorted.{IsPermutation};
ghost use Rattle.hand_rank.specs.Best.{IsBestOf};
ghost use Rattle.hand_rank.specs.Worth.{Worth};

/// The best value of seven cards is one, and does not depend on their order.
pub fn order_of_cards_is_of_no_account()
    ensures { (cards reordered : List ℕ) (one other : Worth) → length cards ≡ 7 → IsPermutation cards reordered → IsBestOf cards one → IsBestOf reordered other → one ≡ other }
{}
