//! What holds of every session: each law is the contract of a function that does nothing.

ghost use Rattle.seat_session.specs.Laws.{OneAnswer, RunsGoOn, AnyPieces, WholeLines};
ghost use Rattle.seat_session.specs.RightLines.{RightLinesAct};
ghost use Rattle.seat_session.specs.EachLine.{EachLineAnswered, NextLineAnswered};
ghost use Rattle.seat_session.specs.Progress.{AnswersTakeLines, PiecesAddLines, ReadyComesFirst, ReadyComesOnce};

use betting::laws::allowed_without_fault;
use matchstate::laws::{a_text_reads_one_way, texts_are_answers};

/// What a session was given and the hands of a table have one answer: a line says one thing, or has one fault.
pub fn one_answer()
    ensures { OneAnswer }
{
    a_text_reads_one_way();
    allowed_without_fault();
}

/// What happens to a session goes on: its pieces and its answers are those of the events so far and of the
/// later ones.
pub fn runs_go_on()
    ensures { RunsGoOn }
{}

/// However a seat's bytes are cut into pieces, and whenever its session is asked, the answers are those to the
/// joined bytes, each by the hands of its time.
pub fn any_pieces()
    ensures { AnyPieces }
{}

/// What a session takes of a seat's bytes are whole lines, and what it says that the seat said is what one
/// whole line among them says.
pub fn whole_lines()
    ensures { WholeLines }
{}

/// The line that a seat has now, a colon and the text of an allowed action, from the seat that is to act, are
/// that act.
pub fn right_lines_act()
    ensures { RightLinesAct }
{
    texts_are_answers();
}

/// A session that is asked until there is no answer has answered each whole line that isn't skipped, once.
pub fn each_line_answered()
    ensures { EachLineAnswered }
{}

/// When a session answers, each whole line before that isn't skipped was answered once, and this answer is what the
/// bytes behind those lines say: so too where it closes the session.
pub fn next_line_answered()
    ensures { NextLineAnswered }
{}

/// Each answer that doesn't close a session takes a line feed of what waits, so a session that is asked until there is
/// no answer, or until it is closed, gives at most one answer more than line feeds wait.
pub fn answers_take_lines()
    ensures { AnswersTakeLines }
{}

/// A piece adds its line feeds to those that wait.
pub fn pieces_add_lines()
    ensures { PiecesAddLines }
{}

/// A session that says `Ready` wasn't ready before, and every answer leaves it ready or closed.
pub fn ready_comes_first()
    ensures { ReadyComesFirst }
{}

/// `Ready` comes at most once a session.
pub fn ready_comes_once()
    ensures { ReadyComesOnce }
{}
