ghost use Rattle.std.specs.Prelude.{◌≡◌, ◌+◌, ◌<◌, ◌≤◌, ◌++◌, length, vec_len, vec_capacity, OnOk, OnErr};
ghost use Rattle.slot_log.specs.Dealer.{finished_count};
ghost use Rattle.match_log.specs.Further.{further_lines as lines_of, last_line, score_of};

use crate::score_lines::{MOST_SCORE_LINE, score_line_reserved};
use crate::seat_names::SeatNames;
use crate::state_lines::{MOST_STATE_LINE, state_line_reserved};
use slot_log::Table;
use std::alloc::AllocError;

/// No command adds more bytes to a log.
pub const MOST_FURTHER: usize = MOST_STATE_LINE + MOST_SCORE_LINE;

/// Appends what the log has further after a command that took effect: while a hand runs nothing, else the line of
/// the hand that has ended, and the score where the match is over.
///
/// An `Err` comes only where memory was refused; then nothing has changed.
pub fn further_lines(out: &mut Vec<u8>, table: &Table, names: &SeatNames) -> Result<(), AllocError>
    requires { length names.now ≡ table.now.game.players }
    ensures ok { OnOk result (out.new.items ≡ out.old.items ++ lines_of table.now.game table.now.count names.now table.now.hands) }
    ensures err { OnErr result (out.new.items ≡ out.old.items) }
    ensures full { OnErr result (vec_capacity out.old < vec_len out.old + 4756) }
{
    out.reserve(MOST_FURTHER)?;
    further_lines_reserved(out, table, names);
    Ok(())
}

/// As `further_lines`, where there is room for `MOST_FURTHER` bytes.
pub fn further_lines_reserved(out: &mut Vec<u8>, table: &Table, names: &SeatNames)
    requires names { length names.now ≡ table.now.game.players }
    requires room { vec_len out.old + 4756 ≤ vec_capacity out.old }
    ensures items { out.new.items ≡ out.old.items ++ lines_of table.now.game table.now.count names.now table.now.hands }
    ensures len { vec_len out.new ≤ vec_len out.old + 4756 }
    ensures capacity { vec_capacity out.old ≤ vec_capacity out.new }
{
    if !table.running() {
        put_last_line(out, table, names);
        put_score(out, table, names);
    }
}

/// Appends the line of the last finished hand.
fn put_last_line(out: &mut Vec<u8>, table: &Table, names: &SeatNames)
    requires names { length names.now ≡ table.now.game.players }
    requires room { vec_len out.old + 4208 ≤ vec_capacity out.old }
    ensures items { out.new.items ≡ out.old.items ++ last_line table.now.game names.now table.now.hands (finished_count table.now.game table.now.hands) }
    ensures len { vec_len out.new ≤ vec_len out.old + 4208 }
    ensures capacity { vec_capacity out.old ≤ vec_capacity out.new }
{
    if let Some(hand) = table.finished().checked_sub(1) {
        state_line_reserved(out, table, hand, names);
    }
}

/// Appends the score where the match is over.
fn put_score(out: &mut Vec<u8>, table: &Table, names: &SeatNames)
    requires names { length names.now ≡ table.now.game.players }
    requires room { vec_len out.old + 548 ≤ vec_capacity out.old }
    ensures items { out.new.items ≡ out.old.items ++ score_of table.now.game table.now.count names.now table.now.hands }
    ensures len { vec_len out.new ≤ vec_len out.old + 548 }
    ensures capacity { vec_capacity out.old ≤ vec_capacity out.new }
{
    if table.over() {
        score_line_reserved(out, table, names);
    }
}
