ghost use Rattle.std.specs.Prelude.{◌≡◌, ◌+◌, ◌<◌, ◌≤◌, ◌++◌, true, length, vec_len, vec_capacity, OnOk, OnErr};
ghost use Rattle.slot_log.specs.Dealer.{is_match_over};
ghost use Rattle.match_log.specs.Lines.{score_line as line_of};
ghost use Rattle.match_log.specs.Tally.{IsTallyOf};

use crate::dealt_hand::dealt_hand;
use crate::fields::{put_names, put_values};
use crate::score::Score;
use crate::seat_names::SeatNames;
use crate::settlement::payoffs;
use matchstate::put;
use slot_log::Table;
use std::alloc::AllocError;

/// No SCORE line has more bytes.
pub const MOST_SCORE_LINE: usize = 548;

/// Appends the last line of a match that is over, `SCORE:values:names` and LF: what each seat won or lost
/// over all hands, in whole chips and in seat order.
///
/// An `Err` comes only where memory was refused; then nothing has changed.
pub fn score_line(out: &mut Vec<u8>, table: &Table, names: &SeatNames) -> Result<(), AllocError>
    requires over { is_match_over table.now.game table.now.count table.now.hands ≡ true }
    requires names { length names.now ≡ table.now.game.players }
    ensures ok { OnOk result (out.new.items ≡ out.old.items ++ line_of table.now.game names.now table.now.hands) }
    ensures err { OnErr result (out.new.items ≡ out.old.items) }
    ensures full { OnErr result (vec_capacity out.old < vec_len out.old + 548) }
{
    out.reserve(MOST_SCORE_LINE)?;
    score_line_reserved(out, table, names);
    Ok(())
}

/// As `score_line`, where there is room for `MOST_SCORE_LINE` bytes.
pub fn score_line_reserved(out: &mut Vec<u8>, table: &Table, names: &SeatNames)
    requires over { is_match_over table.now.game table.now.count table.now.hands ≡ true }
    requires names { length names.now ≡ table.now.game.players }
    requires room { vec_len out.old + 548 ≤ vec_capacity out.old }
    ensures items { out.new.items ≡ out.old.items ++ line_of table.now.game names.now table.now.hands }
    ensures len { vec_len out.new ≤ vec_len out.old + 548 }
    ensures capacity { vec_capacity out.old ≤ vec_capacity out.new }
{
    let score = score_of(table);
    put(out, b"SCORE:");
    put_values(out, score.totals(table.game().players()));
    put(out, b":");
    put_names(out, names.as_slice(), 0);
    put(out, b"\n");
}

/// What each seat won and lost in the hands that were dealt.
fn score_of(table: &Table) -> Score
    ensures { IsTallyOf table.now.game table.now.hands result }
{
    let game = table.game();
    game.limits();
    let mut score = Score::new();
    for hand in 0..table.dealt() {
        let (play, deal) = dealt_hand(table, hand);
        score.add(payoffs(game, play, deal).as_slice());
    }
    score
}
