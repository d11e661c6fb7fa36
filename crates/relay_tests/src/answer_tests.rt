//! When the bot's answer is said to whom.

use crate::table::{
    ANSWER, BEFORE, LINE, Table, assert_bytes, assert_number, assert_that, at, terms,
};
use game_def::read;
use node_wires::Line;
use relay_runs::RelayEnd;
use sample_games::N2;
use std::alloc::AllocError;
use std::process::Abort;
use std::test::Fail;

/// A relay whose nodes have all told the line; node 2 first.
fn told(rt: &HostRuntime, nodes: u8) -> Result<Table, AllocError> {
    let mut table = Table::with_bot(rt.alloc(), nodes)?;
    table.all_tell(nodes, BEFORE)?;
    let _ = table.turn(at(0));
    table.tells(2, LINE)?;
    let _ = table.turn(at(0));
    table.all_tell(nodes, LINE)?;
    let _ = table.turn(at(0));
    Ok(table)
}

/// So many nodes of so many have got the answer, each once, just before this moment; and one more at it.
fn grows(rt: &impl Abort, table: &mut Table, nodes: u8, count: u64, now: u64) {
    let _ = table.turn(now.saturating_sub(1));
    assert_number(rt, table.count_got(nodes, ANSWER), count);
    let _ = table.turn(now);
    assert_number(rt, table.count_got(nodes, ANSWER), count.saturating_add(1));
}

/// An answer behind which no line comes, as one that is refused, goes to the node that told the line first, and to the others
/// after 0.5, 1, 2 and 4 seconds: to each once. No connection ends.
#[test]
fn a_refused_answer_goes_to_each_once(rt: HostRuntime) -> Result<(), Fail> {
    let mut table = told(&rt, 5)?;
    assert_bytes(
        &rt,
        table.at_bot(),
        b"MATCHSTATE:0:0::5d5c|\r\nMATCHSTATE:0:0:c:5d5c|\r\n",
    );
    table.says(ANSWER)?;
    let _ = table.turn(at(0));
    assert_that(&rt, table.has_got(2, ANSWER));
    assert_number(&rt, table.count_got(5, ANSWER), 1);
    for (count, later) in [(1, 500_000), (2, 1_500_000), (3, 3_500_000), (4, 7_500_000)] {
        grows(&rt, &mut table, 5, count, at(later));
    }
    for later in [11_500_000, 15_500_000, 60_000_000] {
        let _ = table.turn(at(later));
    }
    assert_number(&rt, table.count_got(5, ANSWER), 5);
    for node in 0..5 {
        assert_that(&rt, table.is_up(node));
    }
    Ok(())
}

/// Where the connection ends over which the answer was said, it is said to another node at once; where a line follows, to
/// nobody more.
#[test]
fn an_answer_is_said_until_a_line_follows(rt: HostRuntime) -> Result<(), Fail> {
    let mut table = told(&rt, 3)?;
    table.says(ANSWER)?;
    let _ = table.turn(at(0));
    table.ends(2);
    let _ = table.turn(at(1000));
    assert_number(&rt, table.count_got(2, ANSWER), 1);
    table.tells(1, b"MATCHSTATE:0:0:cc/:5d5c|/2s2h2d\r\n")?;
    for later in [2000, 501_000, 1_501_000, 9_000_000] {
        let _ = table.turn(at(later));
    }
    assert_number(&rt, table.count_got(2, ANSWER), 1);
    Ok(())
}

/// An answer to the line before, a comment, and an empty line.
const OLD_ANSWER: &[u8] = b"MATCHSTATE:0:0::5d5c|:c\r\n";

const COMMENT: &[u8] = b"#c\r\n";

const EMPTY: &[u8] = b"\r\n";

/// What isn't the newest line, a colon and something goes to nobody.
#[test]
fn only_answers_to_the_newest_line_are_said(rt: HostRuntime) -> Result<(), Fail> {
    let mut table = told(&rt, 3)?;
    for text in [BEFORE, OLD_ANSWER, COMMENT, EMPTY, LINE] {
        table.says(text)?;
    }
    for later in [0, 1_000_000, 9_000_000] {
        let _ = table.turn(at(later));
    }
    assert_number(&rt, table.count_got(3, b""), 3);
    Ok(())
}

/// A bot that answers and ends its connection at once is heard.
#[test]
fn the_last_answer_is_said(rt: HostRuntime) -> Result<(), Fail> {
    let mut table = told(&rt, 3)?;
    table.says(ANSWER)?;
    table.wire.inner.end(Line::Seat(0));
    let end = table.turn(at(0));
    assert_that(&rt, end == Some(RelayEnd::BotLeft));
    assert_that(&rt, table.has_got(2, ANSWER));
    Ok(())
}

/// Another legal answer to the same line.
const SECOND: &[u8] = b"MATCHSTATE:0:0:c:5d5c|:r300\r\n";

/// Of two answers to one line, in one piece and 20 ms behind one another, a relay that mends says the first alone; one that
/// doesn't says the second in its place.
#[test]
fn the_first_answer_stands_where_answers_are_mended(rt: HostRuntime) -> Result<(), Fail> {
    for (mends, said) in [(true, ANSWER), (false, SECOND)] {
        let mut terms = terms(3);
        if mends {
            terms.mended = Some(read(N2).expect(&rt, "a game"));
        }
        let mut table = Table::by(rt.alloc(), terms, 0)?;
        table.bot_comes()?;
        table.all_tell(3, BEFORE)?;
        table.all_tell(3, LINE)?;
        let _ = table.turn(at(0));
        table.says(ANSWER)?;
        table.says(SECOND)?;
        let _ = table.turn(at(0));
        assert_number(&rt, table.count_got(3, said), 1);
        table.says(SECOND)?;
        let _ = table.turn(at(20_000));
        assert_number(&rt, table.count_got(3, ANSWER), if mends { 1 } else { 0 });
    }
    Ok(())
}
