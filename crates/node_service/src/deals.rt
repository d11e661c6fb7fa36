//! The deals of a table.

ghost use Rattle.std.specs.List.{AllByRecursion};
ghost use Rattle.card_core.specs.Deal.{IsDeal};

use slot_log::Table;

/// Reads the deal of each hand of a table: each is one for the game's players, whoever dealt it.
pub(crate) fn read_deals(table: &Table)
    ensures { AllByRecursion (λ hand. IsDeal table.now.game.players hand.deal) table.now.hands }
{
    for hand in 0..table.dealt() {
        let _ = table.deal(hand);
    }
}
