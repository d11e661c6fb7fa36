//! What nodes are asked for, and how a relay ends by what they say.

use crate::table::{
    BEFORE, LINE, OTHER, OVER, Table, assert_bytes, assert_number, assert_that, at, terms,
};
use node_wires::Line;
use relay_runs::{RelayEnd, RelayNotice, Terms};
use std::alloc::{AllocError, Global};
use std::test::Fail;

/// Both lines.
const BOTH: &[u8] = b"MATCHSTATE:0:0::5d5c|\r\nMATCHSTATE:0:0:c:5d5c|\r\n";

/// The one behind them.
const NEXT: &[u8] = b"MATCHSTATE:0:0:cc/:5d5c|/2s2h2d\r\n";

/// A relay whose nodes have all told both lines.
fn told(alloc: Global, nodes: u8) -> Result<Table, AllocError> {
    let mut table = Table::with_bot(alloc, nodes)?;
    table.all_tell(nodes, BOTH)?;
    let _ = table.turn(at(0));
    Ok(table)
}

/// A relay for two nodes that goes by these terms, with its bot.
fn by(alloc: Global, terms: Terms) -> Result<Table, AllocError> {
    let mut table = Table::by(alloc, terms, 0)?;
    table.bot_comes()?;
    Ok(table)
}

/// How many notes of a node that began ahead there are, since they were taken.
fn ahead(table: &mut Table) -> u64 {
    let mut found = 0u64;
    for notice in table.server.take_notices() {
        if let RelayNotice::Ahead { .. } = notice {
            found = found.saturating_add(1);
        }
    }
    found
}

/// Before the bot was given a line each node is asked for the first one; from then on, over each connection that begins, for the
/// last one that the bot was given, and it tells that again.
#[test]
fn each_connection_asks_for_the_last_line(rt: HostRuntime) -> Result<(), Fail> {
    let mut table = Table::with_bot(rt.alloc(), 2)?;
    assert_that(
        &rt,
        table.was_asked(0, b"FIRST") && table.was_asked(1, b"FIRST"),
    );
    table.all_tell(2, BOTH)?;
    let _ = table.turn(at(0));
    table.ends(0);
    table.ends(1);
    let _ = table.turn(at(2_000_000));
    let _ = table.turn(at(3_000_000));
    for node in 0..2 {
        assert_that(&rt, table.was_asked(node, b"MATCHSTATE:0:0:c:5d5c|"));
    }
    table.tells(1, LINE)?;
    table.tells(1, NEXT)?;
    let _ = table.turn(at(3_000_000));
    assert_number(
        &rt,
        table.at_bot().len() as u64,
        (BOTH.len() + NEXT.len()) as u64,
    );
    Ok(())
}

/// With `--newest` the first lines may be any, and the nodes are asked for the newest; of the second node none is given that is ahead
/// of the first one's, which may still tell the lines between: after a fifth of a second it is dialled anew, for the bot's last
/// line.
#[test]
fn the_newest_lines_leave_no_gap(rt: HostRuntime) -> Result<(), Fail> {
    let mut table = by(
        rt.alloc(),
        Terms {
            newest: true,
            ..terms(2)
        },
    )?;
    assert_that(
        &rt,
        table.was_asked(0, b"NEWEST") && table.was_asked(1, b"NEWEST"),
    );
    table.tells(0, LINE)?;
    table.tells(1, b"MATCHSTATE:0:1::5d5c|\r\n")?;
    let _ = table.turn(at(0));
    assert_bytes(&rt, table.at_bot(), LINE);
    let _ = table.turn(at(199_999));
    assert_that(&rt, table.is_up(1));
    let _ = table.turn(at(200_000));
    assert_that(&rt, !table.is_up(1));
    assert_number(&rt, ahead(&mut table), 1);
    let _ = table.turn(at(400_000));
    assert_that(&rt, table.was_asked(1, b"MATCHSTATE:0:0:c:5d5c|"));
    assert_bytes(&rt, table.at_bot(), LINE);
    Ok(())
}

/// A node that is asked for the first line, and begins with another, is left; nothing of it is given.
#[test]
fn who_begins_with_another_line_is_left(rt: HostRuntime) -> Result<(), Fail> {
    let mut table = Table::with_bot(rt.alloc(), 1)?;
    table.tells(0, LINE)?;
    let _ = table.turn(at(0));
    assert_number(&rt, table.at_bot().len() as u64, 0);
    assert_that(&rt, !table.is_up(0));
    assert_number(&rt, ahead(&mut table), 1);
    Ok(())
}

/// With `--stay` the lines of each further bot begin with the newest.
#[test]
fn a_further_bot_begins_with_the_newest(rt: HostRuntime) -> Result<(), Fail> {
    let mut table = by(
        rt.alloc(),
        Terms {
            stays: true,
            ..terms(2)
        },
    )?;
    table.all_tell(2, BOTH)?;
    let _ = table.turn(at(0));
    table.wire.inner.end(Line::Seat(0));
    let _ = table.turn(at(0));
    table.bot_comes()?;
    assert_that(
        &rt,
        table.was_asked(0, b"NEWEST") && table.was_asked(1, b"NEWEST"),
    );
    Ok(())
}

/// The match is over behind the last line: the relay ends with status 0 once the bot has taken all of it, also where a node is
/// hung. The bot isn't told that.
#[test]
fn a_match_is_over(rt: HostRuntime) -> Result<(), Fail> {
    let mut table = told(rt.alloc(), 3)?;
    table.wire.is_deaf = true;
    table.tells(1, NEXT)?;
    table.tells(1, OVER)?;
    table.ends(1);
    assert_that(&rt, table.turn(at(0)).is_none());
    assert_that(&rt, table.turn(at(60_000_000)).is_none());
    table.wire.is_deaf = false;
    let end = table.turn(at(61_000_000));
    assert_that(&rt, end == Some(RelayEnd::Over));
    assert_number(&rt, RelayEnd::Over.status() as u64, 0);
    assert_number(
        &rt,
        table.at_bot().len() as u64,
        (BOTH.len() + NEXT.len()) as u64,
    );
    Ok(())
}

/// A node that says so behind an earlier line than the bot's last has another match's end: the relay goes on.
#[test]
fn the_end_of_another_match_is_none(rt: HostRuntime) -> Result<(), Fail> {
    let mut table = Table::with_bot(rt.alloc(), 2)?;
    table.tells(0, BOTH)?;
    let _ = table.turn(at(0));
    table.tells(1, BEFORE)?;
    table.tells(1, OVER)?;
    for later in [0, 2_000_000, 15_000_000] {
        assert_that(&rt, table.turn(at(later)).is_none());
    }
    table.tells(0, NEXT)?;
    let _ = table.turn(at(15_000_000));
    assert_number(
        &rt,
        table.at_bot().len() as u64,
        (BOTH.len() + NEXT.len()) as u64,
    );
    Ok(())
}

/// All of these nodes that are dialled say that they have another match.
fn are_of_another(table: &mut Table, nodes: u8) -> Result<(), AllocError> {
    for node in 0..nodes {
        if table.is_up(node) {
            table.tells(node, OTHER)?;
            table.ends(node);
        }
    }
    Ok(())
}

/// For so many seconds, a turn each half second, these nodes say that they have another match: the first half second at which the
/// relay ended, and how.
fn ends_after(
    table: &mut Table,
    nodes: u8,
    seconds: u64,
) -> Result<(u64, Option<RelayEnd>), AllocError> {
    for half in 0..seconds.saturating_mul(2) {
        are_of_another(table, nodes)?;
        let end = table.turn(at(half.saturating_mul(500_000)));
        if end.is_some() {
            return Ok((half, end));
        }
    }
    Ok((0, None))
}

/// Each node says for ten seconds that it has another match: the relay ends with status 1.
#[test]
fn another_match_ends_a_relay(rt: HostRuntime) -> Result<(), Fail> {
    let mut table = told(rt.alloc(), 3)?;
    let (half, end) = ends_after(&mut table, 3, 20)?;
    assert_that(
        &rt,
        end == Some(RelayEnd::OtherMatch) && 20 <= half && half <= 22,
    );
    assert_number(&rt, RelayEnd::OtherMatch.status() as u64, 1);
    Ok(())
}

/// While one node has told lines and lasts it goes on, whatever the others say.
#[test]
fn a_node_that_may_tell_more_holds_a_relay(rt: HostRuntime) -> Result<(), Fail> {
    let mut table = told(rt.alloc(), 3)?;
    let (_, end) = ends_after(&mut table, 2, 30)?;
    assert_that(&rt, end.is_none());
    table.tells(2, NEXT)?;
    let _ = table.turn(at(30_000_000));
    assert_number(
        &rt,
        table.at_bot().len() as u64,
        (BOTH.len() + NEXT.len()) as u64,
    );
    Ok(())
}
