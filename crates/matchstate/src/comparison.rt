ghost use Rattle.std.specs.Prelude.{◌≡◌, ◌↔◌, IsTrue};

use betting::Action;
use card_core::Card;

/// Whether two lists of actions are equal.
pub(crate) fn are_same_actions(first: &[Action], second: &[Action]) -> bool
    ensures { IsTrue result ↔ first.now ≡ second.now }
{
    first == second
}

/// Whether two lists of cards are equal.
pub(crate) fn are_same_cards(first: &[Card], second: &[Card]) -> bool
    ensures { IsTrue result ↔ first.now ≡ second.now }
{
    first == second
}
