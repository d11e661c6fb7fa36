//! Nodes and bots that send anything, a bot that doesn't read, and wires that fail.

use crate::table::{ANSWER, BEFORE, LINE, Table, assert_bytes, assert_number, assert_that, at};
use node_wires::Line;
use relay_runs::RelayNotice;
use std::alloc::{AllocError, Global};
use std::process::Abort;
use std::test::Fail;

/// Each byte that there is, in turn.
fn all_bytes(rt: &HostRuntime) -> Result<Vec<u8>, AllocError> {
    let mut bytes = Vec::new(rt.alloc());
    for byte in 0..256u32 {
        bytes.push(byte as u8)?;
    }
    Ok(bytes)
}

/// How many notes there are, since they were taken, of what is no dealer's line, and of what is too long.
fn wrong_lines(table: &mut Table) -> (u64, u64) {
    let mut found = (0u64, 0u64);
    for notice in table.server.take_notices() {
        match notice {
            RelayNotice::NotLine { node: 0 } => found.0 = found.0.saturating_add(1),
            RelayNotice::TooLong { node: 0 } => found.1 = found.1.saturating_add(1),
            _ => {}
        }
    }
    found
}

/// Node 0 says this: its connection ends, with one note of this kind, and node 1 goes on.
fn ends_its_own(
    rt: &impl Abort,
    alloc: Global,
    text: &[u8],
    expected: (u64, u64),
) -> Result<(), AllocError> {
    let mut table = Table::with_bot(alloc, 2)?;
    table.tells(0, text)?;
    table.tells(1, BEFORE)?;
    let _ = table.turn(at(0));
    assert_bytes(rt, table.at_bot(), BEFORE);
    assert_that(rt, !table.is_up(0) && table.is_up(1));
    let found = wrong_lines(&mut table);
    assert_number(rt, found.0, expected.0);
    assert_number(rt, found.1, expected.1);
    Ok(())
}

/// A node that says what is no dealer's line, or one of more than 4096 bytes, is hung up; nothing of it is passed on.
#[test]
fn any_bytes_of_a_node_end_its_own_connection(rt: HostRuntime) -> Result<(), Fail> {
    ends_its_own(&rt, rt.alloc(), &all_bytes(&rt)?, (1, 0))?;
    ends_its_own(&rt, rt.alloc(), b"\r\n", (1, 0))?;
    ends_its_own(&rt, rt.alloc(), b"MATCHSTATE:0:01::|\r\n", (1, 0))?;
    Ok(ends_its_own(&rt, rt.alloc(), &[b'x'; 5000], (0, 1))?)
}

const COMMENT: &[u8] = b"# a comment\r\n";

/// Comments of nodes, and lines that came before, are passed over.
#[test]
fn each_line_comes_once(rt: HostRuntime) -> Result<(), Fail> {
    let mut table = Table::with_bot(rt.alloc(), 2)?;
    for (node, text) in [
        (0u8, BEFORE),
        (1, COMMENT),
        (1, b"#OVER:\r\n"),
        (1, BEFORE),
        (1, LINE),
        (0, LINE),
        (0, BEFORE),
    ] {
        table.tells(node, text)?;
        let _ = table.turn(at(0));
    }
    assert_bytes(
        &rt,
        table.at_bot(),
        b"MATCHSTATE:0:0::5d5c|\r\nMATCHSTATE:0:0:c:5d5c|\r\n",
    );
    assert_number(&rt, table.server.given_by(0), 1);
    assert_number(&rt, table.server.given_by(1), 1);
    Ok(())
}

/// A bot that says 10,000 lines without a line feed is heard behind them: one note, and its right answer goes to the node.
#[test]
fn lines_without_an_end_are_one_line_too_long(rt: HostRuntime) -> Result<(), Fail> {
    let mut table = Table::with_bot(rt.alloc(), 1)?;
    table.tells(0, BEFORE)?;
    table.tells(0, LINE)?;
    let _ = table.turn(at(0));
    for _ in 0..10_000 {
        table.says(b"MATCHSTATE:0:0:c:5d5c|:c\r")?;
        let _ = table.turn(at(0));
    }
    assert_number(&rt, table.count_got(1, b""), 1);
    table.says(b"\n")?;
    table.says(ANSWER)?;
    let _ = table.turn(at(0));
    assert_number(&rt, table.count_got(1, ANSWER), 1);
    Ok(())
}

/// Node 0 tells the first line of each of these hands.
fn tell_hands(rt: &HostRuntime, table: &mut Table, hands: u32) -> Result<(), Fail> {
    for hand in 0..hands {
        let line = format!(in rt.alloc(); "MATCHSTATE:0:{hand}::5d5c|\r\n")?;
        table.tells(0, line.as_bytes())?;
    }
    Ok(())
}

/// While 64 KiB wait for a bot that doesn't read, no line is given: of 5,000 lines, the first 2,564 of which are just
/// above that, no more than these. Once it reads it gets all.
#[test]
fn what_waits_for_a_deaf_bot_is_bounded(rt: HostRuntime) -> Result<(), Fail> {
    let mut table = Table::with_bot(rt.alloc(), 1)?;
    table.wire.is_deaf = true;
    tell_hands(&rt, &mut table, 5000)?;
    for _ in 0..50 {
        let _ = table.turn(at(0));
    }
    assert_number(&rt, table.server.given_by(0), 2564);
    assert_number(&rt, table.at_bot().len() as u64, 0);
    table.wire.is_deaf = false;
    for _ in 0..50 {
        let _ = table.turn(at(0));
    }
    assert_number(&rt, table.server.given_by(0), 5000);
    Ok(())
}

/// An answer to the first line.
const FIRST_ANSWER: &[u8] = b"MATCHSTATE:0:0::5d5c|:c\r\n";

/// A short course of which the call of this number fails. The bot got a beginning of the line, and the node at most one
/// answer over the connection that it has.
fn with_failure(rt: &impl Abort, alloc: Global, call: u64) -> Result<(), AllocError> {
    let mut table = Table::new(alloc, 1, call)?;
    table.bot_comes()?;
    let mut now = at(0);
    for turn in 0..4 {
        if table.is_up(0) {
            table.tells(0, BEFORE)?;
        }
        if turn == 1 {
            table.says(FIRST_ANSWER)?;
        }
        if table.turn(now).is_some() {
            break;
        }
        now = now.saturating_add(300_000);
    }
    assert_that(rt, BEFORE.starts_with(table.at_bot()));
    let is_silent = table.wire.inner.written(Line::Peer(0)).is_empty();
    assert_that(
        rt,
        is_silent || table.has_got(0, b"") || table.has_got(0, FIRST_ANSWER),
    );
    Ok(())
}

/// Each call of the wires fails once.
#[test]
fn calls_that_fail_invent_nothing(rt: HostRuntime) -> Result<(), Fail> {
    for call in 1..60 {
        with_failure(&rt, rt.alloc(), call)?;
    }
    Ok(())
}
