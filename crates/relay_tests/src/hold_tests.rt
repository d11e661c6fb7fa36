//! When nodes aren't dialled, and when a relay gives up.

use crate::table::{BEFORE, LINE, NO_QUORUM, OTHER, Table, assert_number, assert_that, at};
use relay_runs::RelayEnd;
use std::alloc::{AllocError, Global};
use std::process::Abort;
use std::test::Fail;

/// How many of three nodes have a connection.
fn count_up(table: &Table) -> u64 {
    let mut count = 0u64;
    for node in 0..3 {
        if table.is_up(node) {
            count = count.saturating_add(1);
        }
    }
    count
}

/// All three nodes tell this and end their connections. None is dialled before it is due, and all are then.
fn end_all(
    rt: &impl Abort,
    table: &mut Table,
    text: &[u8],
    now: u64,
    due: u64,
) -> Result<(), AllocError> {
    for node in 0..3 {
        table.tells(node, text)?;
        table.ends(node);
    }
    let _ = table.turn(now);
    let _ = table.turn(due.saturating_sub(1));
    assert_number(rt, count_up(table), 0);
    assert_number(rt, table.holds().count, 0);
    let _ = table.turn(due);
    assert_number(rt, count_up(table), 3);
    Ok(())
}

/// Three nodes end each connection behind this text, again and again. They are dialled once more, first a fiftieth of a second
/// later, to see whether they are lost; then none is dialled for 5 seconds, and behind the next ones for 10, 20, 40, 60 and 60. The
/// connections that end as a hold begins count for nothing. The notes are these, above `kind`.
fn holds(rt: &impl Abort, alloc: Global, text: &[u8], kind: u64) -> Result<(), AllocError> {
    let mut table = Table::with_bot(alloc, 3)?;
    let (mut now, mut soon) = (at(0), 20_000);
    for seconds in [5u64, 10, 20, 40, 60, 60] {
        let held = now.saturating_add(soon);
        end_all(rt, &mut table, text, now, held)?;
        assert_number(rt, table.holds().seconds, seconds.saturating_add(kind));
        now = held.saturating_add(seconds.saturating_mul(1_000_000));
        end_all(rt, &mut table, text, held, now)?;
        assert_number(rt, table.holds().count, 0);
        soon = 200_000;
    }
    Ok(())
}

/// Two at one seat: nodes that end each connection as soon as a line came.
#[test]
fn two_at_one_seat_hold_back(rt: HostRuntime) -> Result<(), Fail> {
    Ok(holds(&rt, rt.alloc(), BEFORE, 100)?)
}

/// Seven nodes take the seat from a relay at once, and again as soon as it is back: that is one hold of 5 seconds. What ended
/// before it was over makes the next one no longer: 10 seconds.
#[test]
fn one_round_of_hang_ups_is_one_hold(rt: HostRuntime) -> Result<(), Fail> {
    let mut table = Table::with_bot(rt.alloc(), 7)?;
    for (now, dialled, seconds) in [
        (0, 20_000, 105),
        (20_000, 5_020_000, 0),
        (5_020_000, 5_220_000, 110),
    ] {
        for node in 0..7 {
            table.tells(node, BEFORE)?;
            table.ends(node);
        }
        let _ = table.turn(at(now));
        let _ = table.turn(at(dialled));
        let holds = table.holds();
        assert_number(&rt, holds.count, if seconds > 0 { 1 } else { 0 });
        assert_number(&rt, holds.seconds, seconds);
        assert_that(&rt, table.is_up(6));
    }
    Ok(())
}

/// All of three nodes say that they have no quorum, at this moment.
fn have_no_quorum(table: &mut Table, now: u64) -> Result<(), AllocError> {
    table.all_tell(3, NO_QUORUM)?;
    let _ = table.turn(now);
    Ok(())
}

/// Nodes that have no quorum are dialled again each half second, whether they told lines before or not, and that counts for
/// nothing: one note each, no hold, and the line comes over the connection at which they have one.
#[test]
fn nodes_without_a_quorum_are_dialled_each_half_second(rt: HostRuntime) -> Result<(), Fail> {
    for text in [b"".as_slice(), BEFORE] {
        let mut table = Table::with_bot(rt.alloc(), 3)?;
        table.all_tell(3, text)?;
        let mut now = at(300_000);
        for round in 0..100 {
            have_no_quorum(&mut table, now)?;
            assert_number(&rt, count_up(&table), 0);
            let noted = table.holds().without_quorum;
            assert_number(&rt, noted, if round == 0 { 3 } else { 0 });
            let _ = table.turn(now.saturating_add(499_999));
            assert_number(&rt, count_up(&table), 0);
            now = now.saturating_add(500_000);
            let _ = table.turn(now);
            assert_number(&rt, count_up(&table), 3);
            assert_number(&rt, table.holds().count, 0);
        }
        table.all_tell(3, BEFORE)?;
        table.all_tell(3, LINE)?;
        assert_that(&rt, table.turn(now).is_none());
        assert_that(&rt, table.at_bot().ends_with(LINE));
    }
    Ok(())
}

/// A node that had another match, and now has no quorum, says nothing of its match: the relay goes on.
#[test]
fn who_has_no_quorum_has_no_other_match(rt: HostRuntime) -> Result<(), Fail> {
    let mut table = Table::with_bot(rt.alloc(), 1)?;
    table.tells(0, OTHER)?;
    let _ = table.turn(at(0));
    for half in 2..60u64 {
        let now = at(half.saturating_mul(500_000));
        let _ = table.turn(now);
        table.tells(0, NO_QUORUM)?;
        assert_that(&rt, table.turn(now).is_none());
    }
    Ok(())
}

/// Nodes that end each connection before any line.
#[test]
fn who_is_turned_away_holds_back(rt: HostRuntime) -> Result<(), Fail> {
    Ok(holds(&rt, rt.alloc(), b"", 0)?)
}

/// Where no node is reached for the time of `--give-up`, twenty seconds here, the relay ends.
#[test]
fn a_relay_gives_up(rt: HostRuntime) -> Result<(), Fail> {
    let mut table = Table::new(rt.alloc(), 3, 0)?;
    table.wire.are_down = true;
    table.bot_comes()?;
    for later in [500_000, 10_000_000, 19_999_999] {
        assert_that(&rt, table.turn(at(later)).is_none());
    }
    assert_that(
        &rt,
        table.turn(at(20_000_000)) == Some(RelayEnd::NotReached),
    );
    Ok(())
}

/// A relay whose bot has lines waits however long all nodes refuse, up to the time of `--give-up`: a node that is dialled a fifth of
/// a second after its connection ended refuses from then on.
#[test]
fn a_relay_waits_for_nodes_that_are_away(rt: HostRuntime) -> Result<(), Fail> {
    let mut table = Table::with_bot(rt.alloc(), 1)?;
    table.tells(0, BEFORE)?;
    let _ = table.turn(at(0));
    table.wire.are_down = true;
    table.ends(0);
    for later in [2_000_000, 2_200_000, 12_200_000, 22_199_999] {
        assert_that(&rt, table.turn(at(later)).is_none());
    }
    assert_that(
        &rt,
        table.turn(at(22_200_000)) == Some(RelayEnd::NotReached),
    );
    Ok(())
}
