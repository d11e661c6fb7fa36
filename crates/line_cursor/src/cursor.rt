ghost use Rattle.std.specs.Prelude.{◌≡◌, ◌<◌, ◌+◌, ℕ, true, false, Some, None, IsSome, if◌then◌else◌};
ghost use Rattle.line_cursor.specs.Past.{seat_line_at};
ghost use Rattle.line_cursor.specs.Cursors.{newest_cursor, next_cursor, is_over_after};

use crate::past::{has_lines_at, write_line_at};
use crate::seat_line::SeatLine;
use slot_log::Table;

/// The place of a line of a match: a hand, counted from 0 in the order of dealing, and how many of its actions the line
/// shows. The line of the first deal stands at hand 0 and 0 actions.
#[derive(Clone, Copy, Debug, PartialEq, Eq)]
pub struct Cursor {
    pub hand: u32,
    pub actions: usize,
}

impl Cursor {
    /// The place of the newest lines of a match; none before the first deal.
    pub fn newest(table: &Table) -> Option<Cursor>
        ensures { result ≡ newest_cursor table.now.hands }
    {
        let hand = table.dealt().checked_sub(1)?;
        let play = table.play(hand)?;
        Some(Cursor {
            hand,
            actions: play.actions().len(),
        })
    }

    /// Whether the match has come to this place: then each seat has its line here.
    pub fn has_lines(&self, table: &Table) -> bool
        ensures come { result ≡ true → (seat : ℕ) → IsSome (seat_line_at table.now.game table.now.hands seat self.now.hand self.now.actions) }
        ensures none { result ≡ false → (seat : ℕ) → seat_line_at table.now.game table.now.hands seat self.now.hand self.now.actions ≡ None }
    {
        has_lines_at(table, self.hand, self.actions)
    }

    /// Writes the line that a seat, counted from 0 and below the number of players, was told here; then the cursor is at the
    /// next line.
    ///
    /// False where the match hasn't come to that; then the cursor stays, and the buffer is as it was.
    pub fn write_next(&mut self, line: &mut SeatLine, table: &Table, seat: usize) -> bool
        requires { seat < table.now.game.players }
        ensures told { result ≡ true → seat_line_at table.now.game table.now.hands seat self.old.hand self.old.actions ≡ Some line.new }
        ensures moved { result ≡ true → self.new ≡ next_cursor table.now.game table.now.hands self.old }
        ensures none { result ≡ false → seat_line_at table.now.game table.now.hands seat self.old.hand self.old.actions ≡ None }
        ensures stays { result ≡ false → self.new ≡ self.old }
        ensures kept { result ≡ false → line.new ≡ line.old }
    {
        if !write_line_at(line, table, seat, self.hand, self.actions) {
            return false;
        }
        self.move_on(table);
        true
    }

    /// Moves to the next line's place.
    fn move_on(&mut self, table: &Table)
        requires hand { self.old.hand < 10000 }
        requires actions { self.old.actions < 10000 }
        ensures { self.new ≡ next_cursor table.now.game table.now.hands self.old }
    {
        if is_over_after(table, self.hand, self.actions) {
            self.hand += 1;
            self.actions = 0;
        } else {
            self.actions += 1;
        }
    }
}

/// Whether a hand was over after its first so many actions.
fn is_over_after(table: &Table, hand: u32, actions: usize) -> bool
    ensures { result ≡ is_over_after table.now.game table.now.hands hand actions }
{
    match table.play(hand) {
        Some(play) => play.actions().len() <= actions && play.finished(),
        None => false,
    }
}
