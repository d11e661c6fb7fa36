ghost use Rattle.std.specs.Prelude.{◌≡◌, ◌<◌, Some, length};
ghost use Rattle.card_core.specs.Deal.{IsDeal};
ghost use Rattle.slot_log.specs.Dealer.{hand_at};

use betting::Play;
use card_core::Deal;
use slot_log::Table;

/// The betting and the deal of a hand that was dealt, counted from 0.
pub(crate) fn dealt_hand(table: &Table, number: u32) -> (&Play, &Deal)
    requires { number < length table.now.hands }
    ensures game { result.0.now.game ≡ table.now.game }
    ensures dealt { IsDeal table.now.game.players result.1.now }
    ensures hand { hand_at table.now.hands number ≡ Some (record { deal = result.1.now; past = result.0.now.past }) }
{
    let Some(play) = table.play(number) else {
        unreachable!()
    };
    let Some(deal) = table.deal(number) else {
        unreachable!()
    };
    (play, deal)
}
