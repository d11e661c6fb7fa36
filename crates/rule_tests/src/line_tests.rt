ghost use Rattle.std.specs.Prelude.{◌≡◌, ◌<◌};

use crate::asserting::{holds, same};
use crate::samples::{card, game, ten_ace};
use betting::Action;
use game_def::GameDef;
use matchstate::{
    BettingText, LineFault, MOST_BETTING, MOST_LINE, View, betting_text, position_of, read,
    read_answer, read_betting, read_current_answer, seat_line, seat_line_reserved, seat_view,
    write, write_reserved,
};
use sample_games::{L2, N2};
use slot_log::{Command, Effect, Table};
use std::alloc::{AllocError, Global};
use std::process::Abort;
use std::test::Fail;

// Calls with long contracts stand in one function each: a contract is read anew wherever its call stands.

/// What a command does.
fn applied(table: &mut Table, command: &Command) -> Result<Effect, AllocError> {
    table.apply(command)
}

/// Deals the first hand.
fn deal(rt: &impl Abort, table: &mut Table) {
    let deal = ten_ace(rt);
    same!(rt; applied(table, &Command::Deal { hand: 0, deal }), Ok(Effect::Dealt));
}

/// The table of a limit match of two once its first hand is dealt.
fn dealt(rt: &impl Abort, alloc: Global) -> Table {
    let mut table = Table::new(alloc, game(rt, L2), 1);
    deal(rt, &mut table);
    table
}

/// Takes an action of the first hand, its index counted from 0.
fn take_act(table: &mut Table, index: u16, action: Action) -> Result<(), AllocError> {
    let hand = 0;
    applied(
        table,
        &Command::Act {
            hand,
            index,
            action,
        },
    )?;
    Ok(())
}

/// What a line shows.
fn view_of(rt: &impl Abort, line: &[u8], game: &GameDef) -> View
    ensures { result.game ≡ game.now }
{
    read(line, game).ok().expect(rt, "a line")
}

/// The position of an answer's line and its action, in the first hand; or why a text is no answer.
fn answer_of(rt: &impl Abort, text: &[u8], game: &GameDef) -> Result<(usize, Action), LineFault> {
    let (view, action) = read_answer(text, game)?;
    same!(rt; view.hand(), 0);
    Ok((view.position(), action))
}

/// Sees the line that is written of a view of this game, and what is written into room that is made for it.
fn writes(
    rt: &impl Abort,
    alloc: Global,
    view: &View,
    game: &GameDef,
    wanted: &[u8],
) -> Result<(), AllocError>
    requires { view.now.game ≡ game.now }
{
    let mut line = Vec::new(alloc);
    write(&mut line, view, game)?;
    holds!(rt; line.as_slice() == wanted);
    line.clear();
    line.reserve(MOST_LINE)?;
    write_reserved(&mut line, view, game);
    holds!(rt; line.as_slice() == wanted);
    Ok(())
}

/// Sees that a table has two players.
fn is_of_two(rt: &impl Abort, table: &Table)
    ensures { table.now.game.players ≡ 2 }
{
    assert_eq!(rt; table.game().players(), 2);
}

/// Sees the line of a seat's view at a table of two.
fn sees(
    rt: &impl Abort,
    alloc: Global,
    table: &Table,
    seat: usize,
    wanted: &[u8],
) -> Result<(), AllocError>
    requires { seat < 2 }
{
    is_of_two(rt, table);
    let view = seat_view(table, seat).expect(rt, "a view");
    writes(rt, alloc, &view, table.game(), wanted)
}

/// Raises and calls in the first round.
fn raise_and_call(table: &mut Table) -> Result<(), AllocError> {
    take_act(table, 0, Action::Raise(20))?;
    take_act(table, 1, Action::Call)
}

/// Sees the lines of both seats of a table of two that are written of one betting text, the second into room that is made
/// before.
fn share(
    rt: &impl Abort,
    lines: &mut Vec<u8>,
    table: &Table,
    text: &[u8],
    wanted: &[&[u8]; 2],
) -> Result<(), AllocError> {
    let betting = BettingText::newest(table);
    lines.reserve(MOST_BETTING)?;
    betting.put(lines);
    holds!(rt; lines.as_slice() == text);
    lines.clear();
    is_of_two(rt, table);
    seat_line(lines, table, 0, &betting)?;
    holds!(rt; lines.as_slice() == wanted[0]);
    lines.clear();
    lines.reserve(MOST_LINE)?;
    seat_line_reserved(lines, table, 1, &betting);
    holds!(rt; lines.as_slice() == wanted[1]);
    Ok(())
}

/// Sees the betting text of a table of two, and the lines of both seats.
fn both_see(
    rt: &impl Abort,
    alloc: Global,
    table: &Table,
    text: &[u8],
    wanted: &[&[u8]; 2],
) -> Result<(), AllocError> {
    sees(rt, alloc, table, 0, wanted[0])?;
    sees(rt, alloc, table, 1, wanted[1])?;
    let mut lines = Vec::new(alloc);
    share(rt, &mut lines, table, text, wanted)
}

#[test]
fn all_seats_share_one_betting_text(rt: HostRuntime) -> Result<(), Fail> {
    let mut table = dealt(&rt, rt.alloc());
    let lines: [&[u8]; 2] = [b"MATCHSTATE:0:0::TdAs|", b"MATCHSTATE:1:0::|8hTc"];
    both_see(&rt, rt.alloc(), &table, b"", &lines)?;
    raise_and_call(&mut table)?;
    let lines: [&[u8]; 2] = [
        b"MATCHSTATE:0:0:rc/:TdAs|/2c8c3h",
        b"MATCHSTATE:1:0:rc/:|8hTc/2c8c3h",
    ];
    both_see(&rt, rt.alloc(), &table, b"rc/", &lines)?;
    same!(&rt; position_of(2, 1, 0), 1);
    Ok(())
}

/// Sees that a line is written as it was read.
fn rewrites(rt: &impl Abort, alloc: Global, text: &[u8], game: &GameDef) -> Result<(), AllocError> {
    let view = view_of(rt, text, game);
    writes(rt, alloc, &view, game, text)
}

/// Sees that a view shows four actions, the first player's hole cards, and the flop.
fn shows_the_flop(rt: &impl Abort, view: &View) {
    same!(rt; view.actions().len(), 4);
    same!(rt; view.hole(0), Some([card(rt, b"Td"), card(rt, b"As")]));
    let [first, second, third] = [card(rt, b"2c"), card(rt, b"8c"), card(rt, b"3h")];
    same!(rt; view.board(), [Some(first), Some(second), Some(third), None, None]);
}

/// Lines that are written as they are read.
static LINES: [&[u8]; 3] = [
    b"MATCHSTATE:0:0:rrrc/:TdAs|/2c8c3h",
    b"MATCHSTATE:1:0:f:|8hTc",
    b"MATCHSTATE:0:0:rrrc/cc/cc/cc:TdAs|8hTc/2c8c3h/9c/Kh",
];

#[test]
fn lines_read_as_they_are_written(rt: HostRuntime) -> Result<(), Fail> {
    let game = game(&rt, L2);
    for &text in &LINES {
        rewrites(&rt, rt.alloc(), text, &game)?;
    }
    let view = view_of(&rt, b"MATCHSTATE:0:0:rrrc/:TdAs|/2c8c3h", &game);
    shows_the_flop(&rt, &view);
    Ok(())
}

/// Texts of a limit game: answers in the first hand, each with its position and its action, and what is none.
static ANSWERS: [(&[u8], Result<(usize, Action), LineFault>); 13] = [
    (b"MATCHSTATE:1:0::|8hTc:c", Ok((1, Action::Call))),
    (b"MATCHSTATE:1:0::|8hTc:r", Ok((1, Action::Raise(20)))),
    (b"MATCHSTATE:0:0:c:TdAs|:f", Ok((0, Action::Fold))),
    (b"MATCHSTATE:0:0:rrr:TdAs|:r", Ok((0, Action::Raise(0)))),
    (b"HELLO", Err(LineFault::NotMatchstate)),
    (b"MATCHSTATE:1:0::|8hTc", Err(LineFault::NotMatchstate)),
    (b"MATCHSTATE:1:0::|8hTc:c:c", Err(LineFault::NotMatchstate)),
    (b"MATCHSTATE:2:0::|8hTc:c", Err(LineFault::BadNumber)),
    (b"MATCHSTATE:1:0:x:|8hTc:c", Err(LineFault::BadBetting)),
    (b"MATCHSTATE:0:0::|8hTc:x", Err(LineFault::BadCards)),
    (b"MATCHSTATE:1:0::|8hTc:x", Err(LineFault::BadAction)),
    (b"MATCHSTATE:1:0::|8hTc:r20", Err(LineFault::BadAction)),
    (b"MATCHSTATE:1:0::|8hTc:", Err(LineFault::BadAction)),
];

/// Raises of a no-limit game, which have an amount, and what is none.
static RAISES: [(&[u8], Result<(usize, Action), LineFault>); 6] = [
    (b"MATCHSTATE:1:0::|8hTc:r0", Ok((1, Action::Raise(0)))),
    (b"MATCHSTATE:1:0::|8hTc:r200", Ok((1, Action::Raise(200)))),
    (
        b"MATCHSTATE:1:0::|8hTc:r4294967295",
        Ok((1, Action::Raise(4294967295))),
    ),
    (b"MATCHSTATE:1:0::|8hTc:r", Err(LineFault::BadAction)),
    (b"MATCHSTATE:1:0::|8hTc:r0200", Err(LineFault::BadAction)),
    (
        b"MATCHSTATE:1:0::|8hTc:r4294967296",
        Err(LineFault::BadAction),
    ),
];

#[test]
fn answers_read_as_views_and_actions(rt: HostRuntime) {
    let limit = game(&rt, L2);
    for &(text, wanted) in &ANSWERS {
        same!(&rt; answer_of(&rt, text, &limit), wanted);
    }
    let no_limit = game(&rt, N2);
    for &(text, wanted) in &RAISES {
        same!(&rt; answer_of(&rt, text, &no_limit), wanted);
    }
    same!(&rt; LineFault::BadAction.code(), 44);
}

/// Sees which answer of a seat at a table of two a text is to the line that the seat has now: the hand's number, the
/// position and the action.
fn answers(
    rt: &impl Abort,
    table: &Table,
    seat: usize,
    text: &[u8],
    wanted: Option<(u32, usize, Action)>,
)
    requires { seat < 2 }
{
    is_of_two(rt, table);
    let found = match read_current_answer(text, table, seat) {
        Some(answer) => Some((answer.hand, answer.position, answer.action)),
        None => None,
    };
    same!(rt; found, wanted);
}

/// Texts in the first hand of two once position 0 has raised and position 1 has called, with what each is of seat 1.
static NOW: [(&[u8], Option<(u32, usize, Action)>); 8] = [
    (
        b"MATCHSTATE:1:0:rc/:|8hTc/2c8c3h:c",
        Some((0, 1, Action::Call)),
    ),
    (
        b"MATCHSTATE:1:0:rc/:|8hTc/2c8c3h:f",
        Some((0, 1, Action::Fold)),
    ),
    (b"MATCHSTATE:1:0:rc/:|8hTc/2c8c3h:x", None),
    (b"MATCHSTATE:1:0:rc/:|8hTc/2c8c4h:c", None),
    (b"MATCHSTATE:1:1:rc/:|8hTc/2c8c3h:c", None),
    (b"MATCHSTATE:0:0:rc/:TdAs|/2c8c3h:c", None),
    (b"MATCHSTATE:1:0:rc:|8hTc/2c8c3h:c", None),
    (b"MATCHSTATE:1:0::|8hTc:c", None),
];

#[test]
fn answers_to_the_line_of_now(rt: HostRuntime) -> Result<(), Fail> {
    let mut table = dealt(&rt, rt.alloc());
    let raise = Some((0, 1, Action::Raise(20)));
    answers(&rt, &table, 1, b"MATCHSTATE:1:0::|8hTc:r", raise);
    answers(&rt, &table, 0, b"MATCHSTATE:1:0::|8hTc:r", None);
    raise_and_call(&mut table)?;
    for &(text, wanted) in &NOW {
        answers(&rt, &table, 1, text, wanted);
    }
    Ok(())
}

#[test]
fn betting_is_printed(rt: HostRuntime) -> Result<(), Fail> {
    let play = read_betting(b"rrrc/cc/", &game(&rt, L2)).expect(&rt, "a play");
    let mut text = Vec::new(rt.alloc());
    betting_text(&mut text, &play)?;
    holds!(&rt; text.as_slice() == b"rrrc/cc/".as_slice());
    Ok(())
}
