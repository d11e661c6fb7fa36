use crate::test_streams::{
    Gives, Listener, Reading, Run, Takes, Talker, Writing, ends, is_begun, is_same, is_written,
    reads_or_stops,
};
use game_def::GameDef;
use operator_notes::Stop;
use sample_games::L2;
use std::alloc::{AllocError, Global};
use std::cell::Cell;
use std::io::{ErrorKind, Read, Write};
use std::process::Abort;
use std::test::Fail;
use streamed::{Ending, MOST_READS, hand_run, run_script};

const SCRIPT: &[u8] = b"names alice|bob
deal TdAs|8hTc/2c8c3h/9c/Kh
r
f f
f
";

const ANSWERS: &[u8] = b"0 MATCHSTATE:0:0::TdAs|
1 MATCHSTATE:1:0::|8hTc
0 MATCHSTATE:0:0:r:TdAs|
1 MATCHSTATE:1:0:r:|8hTc
E 110 BadScript
0 MATCHSTATE:0:0:rf:TdAs|
1 MATCHSTATE:1:0:rf:|8hTc
";

/// Runs a script of one hand: how the run ends. The other tests call it, so that the contract of `hand_run` is read
/// once.
fn ran<R: Read, W: Write>(alloc: Global, reader: &mut R, writer: &mut W) -> Ending {
    hand_run(alloc, L2, None, 1, reader, writer)
}

/// Runs the script over such a reader and writer: the run ends as is due.
fn is_run(rt: &impl Abort, alloc: Global, run: &Run) -> Result<(), AllocError> {
    let &(gives, takes, count, text) = run;
    let mut writer = Writing::new(alloc, takes);
    let ending = ran(alloc, &mut Reading::new(SCRIPT, gives), &mut writer);
    is_begun(rt, &writer.taken, ANSWERS, count);
    ends(rt, alloc, ending, text)
}

/// Runs a script that comes byte by byte, with four reads at most.
fn run_by_four(alloc: Global, game: GameDef, bytes: &[u8]) -> Result<(), Stop> {
    let mut reader = Reading::new(bytes, Gives::OneByOne);
    run_script(alloc, game, None, 1, 4, &mut reader, &mut Vec::new(alloc))
}

/// The script at once and in pieces, a reader that fails before its last two lines, a writer that does behind 60 bytes,
/// and flushes that fail.
static ANSWERED: [Run; 10] = [
    (Gives::Whole, Takes::All, ANSWERS.len(), ""),
    (Gives::InPieces, Takes::InPieces, ANSWERS.len(), ""),
    (
        Gives::Until(6, ErrorKind::BrokenPipe),
        Takes::All,
        98,
        "107 StreamFailed",
    ),
    (
        Gives::Until(6, ErrorKind::OutOfMemory),
        Takes::All,
        98,
        "92 OutOfMemory",
    ),
    (
        Gives::Whole,
        Takes::Until(60, ErrorKind::BrokenPipe),
        60,
        "107 StreamFailed",
    ),
    (
        Gives::Whole,
        Takes::Until(60, ErrorKind::OutOfMemory),
        60,
        "107 StreamFailed",
    ),
    (Gives::Whole, Takes::Flushes(0), 0, "107 StreamFailed"),
    (Gives::Whole, Takes::Flushes(1), 48, "107 StreamFailed"),
    (Gives::Whole, Takes::Flushes(2), 98, "107 StreamFailed"),
    (Gives::Whole, Takes::Flushes(3), 114, "107 StreamFailed"),
];

/// As far as the streams go.
#[test]
fn answers_a_script(rt: HostRuntime) -> Result<(), Fail> {
    for run in &ANSWERED {
        is_run(&rt, rt.alloc(), run)?;
    }
    Ok(())
}

#[test]
fn answers_each_line_before_the_next_is_awaited(rt: HostRuntime) {
    let flushed = Cell::new(true);
    let mut reader = Talker {
        rest: SCRIPT,
        flushed: &flushed,
    };
    let mut writer = Listener {
        heard: Vec::new(rt.alloc()),
        flushed: &flushed,
    };
    let ending = ran(rt.alloc(), &mut reader, &mut writer);
    is_same(&rt, ending.status(), 0);
    is_written(&rt, &writer.heard, ANSWERS);
}

#[test]
fn reads_a_script_so_often_and_no_more(rt: HostRuntime) -> Result<(), Fail> {
    is_same(&rt, MOST_READS, 16_777_216);
    let game = game_def::read(L2)?;
    reads_or_stops(&rt, run_by_four(rt.alloc(), game, b"xxx"), true);
    reads_or_stops(&rt, run_by_four(rt.alloc(), game, b"xxxx"), false);
    Ok(())
}
