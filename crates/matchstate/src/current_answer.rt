ghost use Rattle.std.specs.Prelude.{◌≡◌, ◌↔◌, ◌<◌, ◌≤◌, IsTrue, IsNone, IfSome, Some};
ghost use Rattle.betting.specs.declared.action.Action.{Action as Act};
ghost use Rattle.card_core.specs.Deal.{IsDeal};
ghost use Rattle.matchstate.specs.Answer.{IsAnswer};
ghost use Rattle.matchstate.specs.CurrentAnswer.{AnswersNow};
ghost use Rattle.matchstate.specs.Line.{IsLine};
ghost use Rattle.matchstate.specs.SeatHand.{view_in_hand};
ghost use Rattle.matchstate.specs.View.{View, seat_view};

use crate::action_text::read_action;
use crate::line::read_line_of;
use crate::line_fields::cut_last_field;
use crate::seating::{SeatHand, newest_hand};
use crate::seen_cards::are_same_seen;
use crate::sight::sight;
use betting::{Action, Play};
use slot_log::Table;

/// An answer to the line that a seat has now: that line's hand, position and betting, and the action.
#[derive(Drop)]
pub struct CurrentAnswer<'a> {
    pub hand: u32,
    pub position: usize,
    pub play: &'a Play,
    pub action: Action,
}

/// The answer that a text is to the line that a seat, counted from 0 and below the number of players, has now; none where
/// it is no such answer, of which `read_answer` says more. The text is compared with the hand where both lie.
pub fn read_current_answer<'a>(
    bytes: &[u8],
    table: &'a Table,
    seat: usize,
) -> Option<CurrentAnswer<'a>>
    requires { seat < table.now.game.players }
    ensures found { IfSome result (AnswersNow table.now.game table.now.hands seat bytes.now) }
    ensures missing { IsNone result → (view : View) (action : Act) → seat_view table.now.game table.now.hands seat ≡ Some view → ¬ (IsAnswer table.now.game bytes.now view action) }
{
    let (line, field) = cut_last_field(bytes)?;
    let at = newest_hand(table, seat)?;
    if !is_line_in(line, &at) {
        return None;
    }
    let action = read_action(field, at.play)?;
    Some(CurrentAnswer {
        hand: at.hand,
        position: at.position,
        play: at.play,
        action,
    })
}

/// Whether a text is the line of what a seat sees of a hand.
fn is_line_in(bytes: &[u8], at: &SeatHand<'_>) -> bool
    requires below { at.now.position < at.now.play.now.game.players }
    requires number { at.now.hand ≤ 9999 }
    requires dealt { IsDeal at.now.play.now.game.players at.now.deal.now }
    ensures { IsTrue result ↔ IsLine at.now.play.now.game bytes.now (view_in_hand at.now.play.now.game at.now) }
{
    at.play.game().limits();
    let Some(line) = read_line_of(bytes, at.play) else {
        return false;
    };
    if line.position != at.position || line.hand != at.hand {
        return false;
    }
    let seen = sight(at.deal, at.play, at.position);
    are_same_seen(&line.seen, &seen, at.play.players())
}
