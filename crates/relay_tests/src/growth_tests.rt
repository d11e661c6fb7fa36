//! A relay whose memory is refused. `tests/relay_growths` runs this test as often as it allocates.

use crate::table::{ANSWER, BEFORE, HELLO, LINE, Table, assert_that, at};
use game_def::{GameDef, read};
use node_wires::Line;
use relay_runs::{RelayEnd, Terms};
use sample_games::N2;
use std::alloc::AllocError;
use std::process::Abort;
use std::test::Fail;

/// What is said first over each connection: the bot was given nothing yet.
const FIRST: &[u8] = b"#RESUME FIRST\r\nVERSION:2.0.0\r\n";

/// A fold that faces nothing: it is mended to a call.
const FOLD: &[u8] = b"MATCHSTATE:0:0:c:5d5c|:f\r\n";

/// A relay of two nodes that mends answers and traces lines.
fn mending(game: GameDef) -> Terms {
    Terms {
        nodes: 2,
        token: None,
        mended: Some(game),
        newest: false,
        stays: false,
        give_up: 20_000_000,
        traces: true,
        epoch: 0,
    }
}

/// A turn so much later: the relay goes on, or ends by 92.
fn goes_on(rt: &impl Abort, table: &mut Table, later: u64) -> bool {
    match table.turn(at(later)) {
        None => true,
        Some(end) => {
            assert_that(rt, end == RelayEnd::OutOfMemory);
            false
        }
    }
}

/// A bot comes, both nodes tell two lines, and the bot answers the second one, which is said to one node and then to the
/// other. False where the relay ended before.
fn course(rt: &impl Abort, table: &mut Table) -> Result<bool, AllocError> {
    table.wire.inner.come_to_seat(0);
    if !goes_on(rt, table, 0) {
        return Ok(false);
    }
    table.says(HELLO)?;
    if !goes_on(rt, table, 0) {
        return Ok(false);
    }
    for node in 0..2 {
        table.tells(node, BEFORE)?;
        table.tells(node, LINE)?;
    }
    if !goes_on(rt, table, 0) {
        return Ok(false);
    }
    table.says(FOLD)?;
    Ok(goes_on(rt, table, 0) && goes_on(rt, table, 600_000))
}

/// These bytes are a beginning of the two together.
fn is_beginning(bytes: &[u8], first: &[u8], second: &[u8]) -> bool {
    match bytes.strip_prefix(first) {
        Some(rest) => second.starts_with(rest),
        None => first.starts_with(bytes),
    }
}

/// What was written is a beginning of what is to be, whatever memory was refused; and where the relay goes on the bot has
/// both lines.
#[test]
fn want_of_memory_invents_nothing(rt: HostRuntime) -> Result<(), Fail> {
    let game = read(N2).expect(&rt, "a game");
    let mut table = Table::by(rt.alloc(), mending(game), 0)?;
    let is_there = course(&rt, &mut table)?;
    assert_that(&rt, is_beginning(table.at_bot(), BEFORE, LINE));
    if is_there {
        assert_that(&rt, table.at_bot().len() == BEFORE.len() + LINE.len());
    }
    for node in 0..2 {
        let written = table.wire.inner.written(Line::Peer(node));
        assert_that(&rt, is_beginning(written, FIRST, ANSWER));
    }
    Ok(())
}
