ghost use Rattle.std.specs.Prelude.{◌≡◌, ◌<◌, false, Some, Err, IfSome, IfOk, MatchOption};
ghost use Rattle.betting.specs.declared.action.Action.{Action};
ghost use Rattle.matchstate.specs.Answer.{IsAnswer};
ghost use Rattle.matchstate.specs.View.{View, seat_view};
ghost use Rattle.seat_session.specs.Saying.{Greets, Plays, Says, SaidFits};
ghost use Rattle.seat_session.specs.Lines.{IsPartial};
ghost use Rattle.seat_session.specs.Session.{is_closed, FrontSays};

use crate::front::Front;
use crate::line_buffer::LineBuffer;
use crate::phase::Phase;
use crate::said::Said;
use crate::session_fault::SessionFault;
use crate::version::is_version;
use betting::laws;
use matchstate::{answer_fault, read_current_answer};
use slot_log::{Command, Table};

/// What the line in front says; none while no whole line stands there.
pub(crate) fn said_in_front(
    lines: &LineBuffer,
    phase: Phase,
    seat: usize,
    table: &Table,
) -> Option<Result<Said, SessionFault>>
    requires seat { seat < table.now.game.players }
    requires open { is_closed phase ≡ false }
    ensures front { MatchOption result (IsPartial lines.now.waiting) (FrontSays table.now.game table.now.hands seat phase lines.now.waiting) }
    ensures fits { IfSome result (λ answer. IfOk answer (λ said. SaidFits table.now said)) }
{
    match lines.front() {
        Front::Partial => None,
        Front::TooLong => Some(Err(SessionFault::LineTooLong)),
        Front::Line(text) => Some(said_by(text, phase, seat, table)),
    }
}

/// What a line that isn't skipped says.
fn said_by(text: &[u8], phase: Phase, seat: usize, table: &Table) -> Result<Said, SessionFault>
    requires seat { seat < table.now.game.players }
    requires open { is_closed phase ≡ false }
    ensures says { Says table.now.game table.now.hands seat phase text.now result }
    ensures fits { IfOk result (λ said. SaidFits table.now said) }
{
    match phase {
        Phase::Greeting => said_first(text),
        Phase::Ready => said_in_play(text, seat, table),
        Phase::Closed(fault) => Err(fault),
    }
}

/// What the first line says.
fn said_first(text: &[u8]) -> Result<Said, SessionFault>
    ensures { Greets text.now result }
{
    if is_version(text) {
        Ok(Said::Ready)
    } else {
        Err(SessionFault::BadVersion)
    }
}

/// What a line of the game says.
fn said_in_play(text: &[u8], seat: usize, table: &Table) -> Result<Said, SessionFault>
    requires { seat < table.now.game.players }
    ensures plays { Plays table.now.game table.now.hands seat text.now result }
    ensures fits { IfOk result (λ said. SaidFits table.now said) }
{
    laws::allowed_without_fault();
    prove!(table.dealt() <= table.hands());
    let Some(answer) = read_current_answer(text, table, seat) else {
        return Err(why_not_current(text, seat, table));
    };
    if answer.play.to_act() != Some(answer.position) {
        return Err(SessionFault::NotYourTurn);
    }
    match answer.play.fault(answer.action) {
        Some(fault) => Err(SessionFault::Illegal(fault)),
        None => Ok(Said::Act(Command::Act {
            hand: answer.hand,
            index: answer.play.actions().len() as u16,
            action: answer.action,
        })),
    }
}

/// Why a text is no answer to the line that a seat has now.
fn why_not_current(text: &[u8], seat: usize, table: &Table) -> SessionFault
    requires { (view : View) (action : Action) → seat_view table.now.game table.now.hands seat ≡ Some view → ¬ (IsAnswer table.now.game text.now view action) }
    ensures { Plays table.now.game table.now.hands seat text.now (Err result) }
{
    match answer_fault(text, table.game()) {
        None => SessionFault::NotCurrent,
        Some(fault) => SessionFault::Malformed(fault),
    }
}
