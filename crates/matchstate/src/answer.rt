ghost use Rattle.std.specs.Prelude.{MatchOption, Err};
ghost use Rattle.matchstate.specs.Answer.{AnswerReadsAs, IsSomeAnswer};

use crate::action_text::read_action;
use crate::line::{has_fields, read_played};
use crate::line_fault::LineFault;
use crate::line_fields::cut_last_field;
use crate::view::View;
use betting::Action;
use game_def::GameDef;

/// The view and the action that a player's answer of the ACPC protocol 2.0.0 says, given without its line end:
/// a server's line, then `:` and the action's text. Or the first of its faults: 40 to 43 as for a line (40 also
/// where the word and five fields aren't there), then 44 where the last field is no action's text; an amount
/// above 4294967295 is none. In a limit game `r` reads as the only legal amount, or as 0 where no raise is
/// legal.
pub fn read_answer(bytes: &[u8], game: &GameDef) -> Result<(View, Action), LineFault>
    ensures { AnswerReadsAs game.now bytes.now result }
{
    let Some((line, field)) = cut_last_field(bytes) else {
        return Err(LineFault::NotMatchstate);
    };
    match read_played(line, game) {
        Ok((view, play)) => match read_action(field, &play) {
            Some(action) => Ok((view, action)),
            None => Err(LineFault::BadAction),
        },
        Err(fault) => Err(fault),
    }
}

/// The fault of a text of which the word and the fields are there, if it has one.
fn read_fault(bytes: &[u8], game: &GameDef) -> Option<LineFault>
    ensures { MatchOption result (IsSomeAnswer game.now bytes.now) (λ fault. AnswerReadsAs game.now bytes.now (Err fault)) }
{
    match read_answer(bytes, game) {
        Ok(_) => None,
        Err(fault) => Some(fault),
    }
}

/// Why a text is no answer in this game: the fault that `read_answer` tells, 40 to 44; none where it is an answer. What has
/// no word and fields is told so before any room is made for what an answer says, so that an empty line costs little.
pub fn answer_fault(bytes: &[u8], game: &GameDef) -> Option<LineFault>
    ensures { MatchOption result (IsSomeAnswer game.now bytes.now) (λ fault. AnswerReadsAs game.now bytes.now (Err fault)) }
{
    let Some((line, _)) = cut_last_field(bytes) else {
        return Some(LineFault::NotMatchstate);
    };
    if !has_fields(line) {
        return Some(LineFault::NotMatchstate);
    }
    read_fault(bytes, game)
}
