//! The line that a seat was told at any place of a match.

ghost use Rattle.std.specs.Prelude.{◌≡◌, ◌-◌, ◌<◌, ◌≤◌, drop, length, true, false, ℕ, IsSome, Some, None};
ghost use Rattle.card_core.specs.Deal.{IsDeal};
ghost use Rattle.matchstate.specs.Line.{line_text};
ghost use Rattle.matchstate.specs.View.{view_of};
ghost use Rattle.line_cursor.specs.Past.{seat_line_at, IsSeatLine};

use crate::seat_line::SeatLine;
use betting::Play;
use card_core::Deal;
use matchstate::position_of;
use slot_log::Table;

/// Whether the match has come to so many actions of a hand, which is counted from 0 in the order of dealing: then each seat has
/// its line there.
pub(crate) fn has_lines_at(table: &Table, hand: u32, actions: usize) -> bool
    ensures come { result ≡ true → (seat : ℕ) → IsSome (seat_line_at table.now.game table.now.hands seat hand actions) }
    ensures none { result ≡ false → (seat : ℕ) → seat_line_at table.now.game table.now.hands seat hand actions ≡ None }
{
    match table.play(hand) {
        Some(play) => actions <= play.actions().len(),
        None => false,
    }
}

/// Writes the line that a seat, counted from 0 and below the number of players, was told of what it saw of a hand when so many of
/// the hand's actions had been taken; the hand is counted from 0 in the order of dealing.
///
/// False where the match hasn't come to that; then the buffer is as it was.
pub(crate) fn write_line_at(
    line: &mut SeatLine,
    table: &Table,
    seat: usize,
    hand: u32,
    actions: usize,
) -> bool
    requires { seat < table.now.game.players }
    ensures told { result ≡ true → seat_line_at table.now.game table.now.hands seat hand actions ≡ Some line.new }
    ensures none { result ≡ false → seat_line_at table.now.game table.now.hands seat hand actions ≡ None }
    ensures stays { result ≡ false → line.new ≡ line.old }
    ensures seen { result ≡ true → IsSeatLine table.now.game table.now.hands seat hand actions line.new }
    ensures within { result ≡ true → (hand ≤ 9999) × (actions ≤ 256) }
{
    if table.dealt() <= hand {
        return false;
    }
    let Some(deal) = table.deal(hand) else {
        return false;
    };
    let Some(play) = table.play(hand) else {
        return false;
    };
    if play.actions().len() < actions {
        return false;
    }
    let position = position_of(table.game().players(), hand, seat);
    write_line_of(line, position, hand, deal, play, actions);
    true
}

/// Writes the line of what the player at a position saw of a hand after the first so many actions of its play. The newest line is
/// that of the play as it lies.
fn write_line_of(
    line: &mut SeatLine,
    position: usize,
    hand: u32,
    deal: &Deal,
    play: &Play,
    count: usize,
)
    requires few { play.now.game.players ≤ 10 }
    requires below { position < play.now.game.players }
    requires dealt { IsDeal play.now.game.players deal.now }
    requires count { count ≤ length play.now.past }
    ensures { line.new ≡ line_text (view_of play.now.game position hand (record { deal = deal.now; past = drop (length play.now.past - count) play.now.past })) }
{
    if play.actions().len() == count {
        line.write(position, hand, deal, play);
    } else {
        write_earlier(line, position, hand, deal, play, count);
    }
}

/// Writes the line of an earlier state of a play: after its first so many actions. A function of its own, since whoever calls one
/// clears the room of all its variables: so that of the play that is made here is cleared only where it is needed.
fn write_earlier(
    line: &mut SeatLine,
    position: usize,
    hand: u32,
    deal: &Deal,
    play: &Play,
    count: usize,
)
    requires few { play.now.game.players ≤ 10 }
    requires below { position < play.now.game.players }
    requires dealt { IsDeal play.now.game.players deal.now }
    requires count { count ≤ length play.now.past }
    ensures { line.new ≡ line_text (view_of play.now.game position hand (record { deal = deal.now; past = drop (length play.now.past - count) play.now.past })) }
{
    line.write(position, hand, deal, &beginning(play, count));
}

/// A play after its first so many actions.
fn beginning(play: &Play, count: usize) -> Play
    requires { count ≤ length play.now.past }
    ensures { result ≡ record { game = play.now.game; past = drop (length play.now.past - count) play.now.past } }
{
    let mut earlier = Play::new(play.game());
    for action in &play.actions()[..count] {
        earlier.take_action(*action);
    }
    earlier
}
