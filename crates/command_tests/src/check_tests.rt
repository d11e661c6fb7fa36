use crate::test_streams::{
    Gives, Reading, Run, Takes, Writing, ends, is_begun, is_written, reads_or_stops,
};
use operator_notes::Stop;
use sample_games::L2;
use std::alloc::{AllocError, Global};
use std::io::{ErrorKind, Read, Write};
use std::process::Abort;
use std::test::Fail;
use streamed::{Ending, check_run, read_all};

const LOG: &[u8] = b"# name/game/hands m l2.game 1
STATE:0:f:TdAs|8hTc:5|-5:alice|bob
SCORE:5|-5:alice|bob
";

/// Checks a log: how the run ends. Here alone `check_run` is called, so that its contract is read once.
fn ran<R: Read, W: Write>(alloc: Global, game: &[u8], reader: &mut R, writer: &mut W) -> Ending {
    check_run(alloc, game, reader, writer)
}

/// Checks the log over such a reader and writer: the run ends as is due.
fn is_checked(rt: &impl Abort, alloc: Global, run: &Run) -> Result<(), AllocError> {
    let &(gives, takes, count, text) = run;
    let mut writer = Writing::new(alloc, takes);
    let ending = ran(alloc, L2, &mut Reading::new(LOG, gives), &mut writer);
    is_begun(rt, &writer.taken, b"yes\n", count);
    ends(rt, alloc, ending, text)
}

/// The log at once and in pieces, one that can't be read to its end, and a verdict that is refused in its midst or at its
/// flush.
static CHECKED: [Run; 7] = [
    (Gives::Whole, Takes::All, 4, ""),
    (Gives::InPieces, Takes::InPieces, 4, ""),
    (
        Gives::Until(6, ErrorKind::BrokenPipe),
        Takes::All,
        0,
        "104 Unreadable",
    ),
    (
        Gives::Until(6, ErrorKind::OutOfMemory),
        Takes::All,
        0,
        "92 OutOfMemory",
    ),
    (
        Gives::Whole,
        Takes::Until(3, ErrorKind::BrokenPipe),
        3,
        "107 StreamFailed",
    ),
    (
        Gives::Whole,
        Takes::Until(3, ErrorKind::OutOfMemory),
        3,
        "107 StreamFailed",
    ),
    (Gives::Whole, Takes::Flushes(0), 4, "107 StreamFailed"),
];

/// As far as the streams go.
#[test]
fn says_yes_of_a_log(rt: HostRuntime) -> Result<(), Fail> {
    for run in &CHECKED {
        is_checked(&rt, rt.alloc(), run)?;
    }
    Ok(())
}

/// Checks the log of a game that is refused: how the run ends. Nothing is read or written.
fn refused(rt: &impl Abort, alloc: Global) -> Ending {
    let mut reader = &*LOG;
    let mut written = Vec::new(alloc);
    let ending = ran(alloc, b"", &mut reader, &mut written);
    is_written(rt, &written, b"");
    is_written(rt, reader, LOG);
    ending
}

#[test]
fn reads_no_log_of_a_refused_game(rt: HostRuntime) -> Result<(), Fail> {
    let ending = refused(&rt, rt.alloc());
    Ok(ends(&rt, rt.alloc(), ending, "10 NoGamedef 0")?)
}

/// Reads bytes one by one, with four reads at most.
fn read_by_four(alloc: Global, bytes: &[u8]) -> Result<(), Stop> {
    read_all(alloc, 4, &mut Reading::new(bytes, Gives::OneByOne))?;
    Ok(())
}

#[test]
fn reads_a_log_so_often_and_no_more(rt: HostRuntime) {
    reads_or_stops(&rt, read_by_four(rt.alloc(), b"xxx"), true);
    reads_or_stops(&rt, read_by_four(rt.alloc(), b"xxxx"), false);
}
