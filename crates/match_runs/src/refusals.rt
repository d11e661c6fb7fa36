//! The note, on standard error, that what a seat sent was refused. The seat itself is told nothing.

ghost use Rattle.std.specs.Prelude.{◌≡◌, ◌+◌, ◌<◌, ◌∷◌, ◌++◌, true, IfSome, IsNone, drop, length, take};
ghost use Rattle.dealer_world.specs.Viewing.{view_of};
ghost use Rattle.matchstate.specs.Answer.{IsCut};
ghost use Rattle.matchstate.specs.Line.{IsField};
ghost use Rattle.seat_session.specs.Lines.{text_of};
ghost use Rattle.operator_notes.specs.Notes.{about_text};
ghost use Rattle.match_runs.specs.Score.{EndsInFeed};
ghost use Rattle.match_runs.specs.Refusals.{IsOneLine, Answers, AnswersNothing, IsTold, IsToldLate, is_of_answer};

use crate::seat_lines::is_late;
use dealer_node::SeatFault;
use dealer_world::Cluster;
use game_def::GameDef;
use matchstate::read_answer;
use operator_notes::About;
use promise_store::Disk;
use seat_session::SessionFault;

/// What a line says that is an answer: which hand's it is, the line that it sends back, and what the player does.
#[derive(Clone, Copy)]
struct Answer<'a> {
    hand: u32,
    line: &'a [u8],
    action: &'a [u8],
}

/// What is told of a fault in this piece, which a seat sent to a node.
pub(crate) fn about_fault<'a, D: Disk + Drop>(
    cluster: &Cluster<D>,
    piece: &'a [u8],
    node: u8,
    found: SeatFault,
) -> About<'a>
    ensures { IsTold (view_of cluster.now).config.setting.game (view_of cluster.now).all piece.now node found.seat found.fault (about_text result) }
{
    if is_of_answer(found.fault) {
        return about_answer(cluster, piece, node, found);
    }
    About::Faulty {
        node,
        fault: found.fault,
    }
}

/// What is told of a fault of a line that reads as an answer.
fn about_answer<'a, D: Disk + Drop>(
    cluster: &Cluster<D>,
    piece: &'a [u8],
    node: u8,
    found: SeatFault,
) -> About<'a>
    requires { is_of_answer found.fault ≡ true }
    ensures { IsTold (view_of cluster.now).config.setting.game (view_of cluster.now).all piece.now node found.seat found.fault (about_text result) }
{
    match answer_in(piece, cluster.config().game()) {
        Some(answer) => {
            let is_late = is_told_late(cluster, found, node, answer.line);
            About::Refused {
                node,
                hand: answer.hand,
                action: answer.action,
                fault: found.fault,
                is_late,
            }
        }
        None => About::Faulty {
            node,
            fault: found.fault,
        },
    }
}

/// Whether it is a fault of a line that reads as an answer.
fn is_of_answer(fault: SessionFault) -> bool
    ensures { result ≡ is_of_answer fault }
{
    matches!(
        fault,
        SessionFault::NotCurrent | SessionFault::NotYourTurn | SessionFault::Illegal(_)
    )
}

/// Whether it is told that a refused line came late.
fn is_told_late<D: Disk + Drop>(
    cluster: &Cluster<D>,
    found: SeatFault,
    node: u8,
    line: &[u8],
) -> bool
    ensures { IsToldLate (view_of cluster.now).all found.seat node line.now found.fault result }
{
    match found.fault {
        SessionFault::NotCurrent => is_late(cluster, found.seat, node, line),
        _ => false,
    }
}

/// The answer that a piece is; none where it isn't one line, or that is no answer.
fn answer_in<'a>(piece: &'a [u8], game: &GameDef) -> Option<Answer<'a>>
    ensures found { IfSome result (λ answer. Answers game.now piece.now answer.hand answer.line.now answer.action.now) }
    ensures missing { IsNone result → AnswersNothing game.now piece.now }
{
    let Some(text) = one_line(piece) else {
        return None;
    };
    match read_answer(text, game) {
        Ok((view, _)) => answer_of(text, view.hand()),
        Err(_) => None,
    }
}

/// The answer that a text is in a hand of this number; none where it has no `:`.
fn answer_of<'a>(text: &'a [u8], hand: u32) -> Option<Answer<'a>>
    ensures cut { IfSome result (λ answer. IsCut text.now answer.line.now answer.action.now) }
    ensures hand { IfSome result (λ answer. answer.hand ≡ hand) }
    ensures missing { IsNone result → IsField text.now }
{
    let place = last_colon(text)?;
    Some(Answer {
        hand,
        line: &text[..place],
        action: &text[place + 1..],
    })
}

/// What a piece says that is a line with its end.
fn one_line(piece: &[u8]) -> Option<&[u8]>
    ensures found { IfSome result (λ text. IsOneLine piece.now text.now) }
    ensures missing { IsNone result → EndsInFeed piece.now → ⊥ }
{
    let (end, line) = piece.split_last()?;
    if *end != b'\n' {
        return None;
    }
    Some(without_return(line))
}

/// The line without a carriage return at its end.
fn without_return(line: &[u8]) -> &[u8]
    ensures { result.now ≡ text_of line.now }
{
    match line.split_last() {
        Some((last, text)) if *last == b'\r' => text,
        _ => line,
    }
}

/// Where the last `:` stands.
fn last_colon(text: &[u8]) -> Option<usize>
    ensures found { IfSome result (λ place. (place < length text.now) × (text.now ≡ take place text.now ++ 58 ∷ drop (place + 1) text.now) × IsField (drop (place + 1) text.now)) }
    ensures missing { IsNone result → IsField text.now }
{
    for place in (0..text.len()).rev() {
        if text[place] == b':' {
            return Some(place);
        }
    }
    None
}
