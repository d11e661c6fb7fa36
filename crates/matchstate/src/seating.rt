ghost use Rattle.std.specs.Prelude.{◌≡◌, ℕ, ◌+◌, ◌-◌, ◌%◌, ◌<◌, ◌≤◌, None, IsNone, IfSome};
ghost use Rattle.card_core.specs.Deal.{IsDeal};
ghost use Rattle.matchstate.specs.SeatHand.{IsHandOf};
ghost use Rattle.matchstate.specs.View.{seat_view, view_of, position_of};

use crate::sight::sight;
use crate::view::View;
use betting::Play;
use card_core::Deal;
use slot_log::Table;

/// What a seat, counted from 0 and below the number of players, sees of a match: its view of the hand that
/// runs or, between hands and after the last, of the hand that ended; none until the first deal.
pub fn seat_view(table: &Table, seat: usize) -> Option<View>
    requires { seat < table.now.game.players }
    ensures { result ≡ seat_view table.now.game table.now.hands seat }
{
    let at = newest_hand(table, seat)?;
    Some(view_of_hand(at.position, at.hand, at.deal, at.play))
}

/// The newest hand of a match as a seat has it: the seat's position and the hand's number, its deal and its betting.
#[derive(Drop)]
pub(crate) struct SeatHand<'a> {
    pub(crate) position: usize,
    pub(crate) hand: u32,
    pub(crate) deal: &'a Deal,
    pub(crate) play: &'a Play,
}

/// The newest hand as a seat has it, counted from 0 and below the number of players; none until the first deal.
pub(crate) fn newest_hand(table: &Table, seat: usize) -> Option<SeatHand<'_>>
    requires { seat < table.now.game.players }
    ensures none { IsNone result → seat_view table.now.game table.now.hands seat ≡ None }
    ensures some { IfSome result (IsHandOf table.now.game table.now.hands seat) }
{
    let hand = table.dealt().checked_sub(1)?;
    let deal = table.deal(hand)?;
    let play = table.play(hand)?;
    let position = position_of(table.game().players(), hand, seat);
    Some(SeatHand {
        position,
        hand,
        deal,
        play,
    })
}

/// The position that a seat, counted from 0, has in a hand of 2 to 10 players: the positions move on by one seat with
/// each hand.
pub fn position_of(players: usize, hand: u32, seat: usize) -> usize
    requires few { players ≤ 10 }
    requires seat { seat < players }
    ensures value { result ≡ position_of players hand seat }
    ensures below { result < players }
{
    (seat + (players - hand as usize % players)) % players
}

/// What the player at a position sees of a hand.
fn view_of_hand(position: usize, hand: u32, deal: &Deal, play: &Play) -> View
    requires below { position < play.now.game.players }
    requires number { hand ≤ 9999 }
    requires dealt { IsDeal play.now.game.players deal.now }
    ensures { result ≡ view_of play.now.game position hand (record { deal = deal.now; past = play.now.past }) }
{
    View::of(position, hand, play, sight(deal, play, position))
}
