use crate::asserting::same;
use crate::samples::{game, ten_ace};
use betting::Action;
use sample_games::L2;
use seat_session::{Said, Session, SessionFault};
use slot_log::{Command, Table};
use std::alloc::{AllocError, Global};
use std::process::Abort;
use std::test::Fail;

type Answer = Result<Said, SessionFault>;

// Calls with long contracts, and comparisons of answers, stand in one function each: a contract is read anew wherever its
// call stands.

/// A match of one hand that was dealt.
fn dealt(rt: &impl Abort, alloc: Global) -> Result<Table, AllocError> {
    let mut table = Table::new(alloc, game(rt, L2), 1);
    let deal = ten_ace(rt);
    table.apply(&Command::Deal { hand: 0, deal })?;
    Ok(table)
}

/// Gives a session a piece.
fn feed(session: &mut Session, piece: &[u8]) -> Result<(), AllocError> {
    session.feed(piece)
}

/// Sees that a session answers this.
fn answers(rt: &impl Abort, session: &mut Session, table: &Table, wanted: Answer) {
    assert!(rt; session.seat() < table.game().players());
    same!(rt; session.next(table), Some(wanted));
}

/// What is answered: that the seat is ready, a call with its index, or a fault.
#[derive(Clone, Copy)]
enum Wanted {
    Ready,
    Call(u16),
    Fault(SessionFault),
}

/// The answer that is wanted.
fn answer_of(wanted: Wanted) -> Answer {
    match wanted {
        Wanted::Ready => Ok(Said::Ready),
        Wanted::Call(index) => Ok(Said::Act(Command::Act {
            hand: 0,
            index,
            action: Action::Call,
        })),
        Wanted::Fault(fault) => Err(fault),
    }
}

/// What a seat says, and what is answered to it, one behind the other.
type Speech = (usize, &'static [u8], &'static [Wanted]);

/// Sees what is answered to each by a table where a hand was dealt.
fn are_answered(rt: &impl Abort, alloc: Global, speeches: &[Speech]) -> Result<(), AllocError> {
    let table = dealt(rt, alloc)?;
    for said in speeches {
        is_answered(rt, alloc, &table, said)?;
    }
    Ok(())
}

/// Sees what a new session answers.
fn is_answered(
    rt: &impl Abort,
    alloc: Global,
    table: &Table,
    said: &Speech,
) -> Result<(), AllocError> {
    let (seat, bytes, answered) = *said;
    let mut session = Session::new(alloc, seat);
    feed(&mut session, bytes)?;
    for wanted in answered {
        answers(rt, &mut session, table, answer_of(*wanted));
    }
    Ok(())
}

const BAD_VERSION: Wanted = Wanted::Fault(SessionFault::BadVersion);

/// First lines.
static FIRST_LINES: [Speech; 5] = [
    (1, b"VERSION:2.0.0\r\n", &[Wanted::Ready]),
    (1, b"# hello\r\n;\nVERSION:2.0.7\n", &[Wanted::Ready]),
    (1, b"VERSION:2.0.012345678\n", &[Wanted::Ready]),
    (1, b"VERSION:2.0.0123456789\n", &[BAD_VERSION]),
    (1, b"MATCHSTATE:1:0::|8hTc:c\n", &[BAD_VERSION]),
];

#[test]
fn first_lines(rt: HostRuntime) -> Result<(), Fail> {
    Ok(are_answered(&rt, rt.alloc(), &FIRST_LINES)?)
}

/// Lines that are acts, and one that is none.
static ACTS: [Speech; 3] = [
    (
        1,
        b"VERSION:2.0.0\r\nMATCHSTATE:1:0::|8hTc:c\r\n",
        &[Wanted::Ready, Wanted::Call(0)],
    ),
    (
        1,
        b"VERSION:2.0.0\n# call\n;\r\nMATCHSTATE:1:0::|8hTc:c\n",
        &[Wanted::Ready, Wanted::Call(0)],
    ),
    (
        0,
        b"VERSION:2.0.0\r\nMATCHSTATE:0:0::TdAs|:c\r\n",
        &[Wanted::Ready, Wanted::Fault(SessionFault::NotYourTurn)],
    ),
];

#[test]
fn acts(rt: HostRuntime) -> Result<(), Fail> {
    same!(&rt; SessionFault::LineTooLong.code(), 81);
    Ok(are_answered(&rt, rt.alloc(), &ACTS)?)
}
