//! What holds of every draw: the law is the contract of a function that does nothing.

ghost use Rattle.std.specs.Prelude.{ℕ, ◌≤◌, IsPermutation};
ghost use Rattle.card_core.specs.Deal.{IsDeal};
ghost use Rattle.deck_draw.specs.Deck.{pack, deck_of, drawn};

/// The deck of every seed and hand is the pack in some order, and what is drawn from it for 10 players or fewer is a
/// deal: 2n + 5 cards, none of them twice.
///
/// `draw` promises the same of the deals that it answers; this says it of those that stand in a list of commands.
pub fn draws_are_deals()
    ensures deck { (seed hand : ℕ) → IsPermutation pack (deck_of seed hand) }
    ensures deal { (seed hand players : ℕ) → players ≤ 10 → IsDeal players (drawn seed hand players) }
{}
