use crate::test_streams::{
    Gives, Listener, MATCH, Reading, Run, Takes, Talker, Writing, config, ends, holds, is_begun,
    is_same, is_written, reads_or_stops,
};
use dealer_kind::Config;
use match_runs::{play_match, play_run};
use operator_notes::Stop;
use sample_games::L2;
use std::alloc::{AllocError, Global};
use std::cell::Cell;
use std::io::{ErrorKind, Read, Write};
use std::process::Abort;
use std::test::Fail;
use streamed::{Ending, MOST_READS};

/// What each node's log begins with.
const HEADERS: &[u8] = b"0 L # name/game/hands m1 l2.game 1
1 L # name/game/hands m1 l2.game 1
2 L # name/game/hands m1 l2.game 1
";

/// Node 0 has its deal chosen with node 1's vote; all three ask for the lead.
const CALM: &[u8] = b"connect 0 1
line 0 1 VERSION:2.0.0
tick 0
deliver 0
deliver 2
deliver 3
deliver 7
deliver 5
tick 0
tick 1
tick 2
";

const CALM_ANSWERS: &[u8] = b"0 L # name/game/hands m1 l2.game 1
1 L # name/game/hands m1 l2.game 1
2 L # name/game/hands m1 l2.game 1
frame 0 0>1 0000000b0201000000010000000000
frame 1 0>2 0000000b0201000000010000000000
frame 2 1>0 0000000c020200000001000000000000
frame 3 0>1 0000001b02040000000100000000000101000000000921331a200018061c2e
frame 4 0>2 0000001b02040000000100000000000101000000000921331a200018061c2e
frame 5 0>1 0000001b02050000000100000000000101000000000921331a200018061c2e
frame 6 0>2 0000001b02050000000100000000000101000000000921331a200018061c2e
frame 7 1>0 0000001b02050000000100000000000101000000000921331a200018061c2e
frame 8 1>2 0000001b02050000000100000000000101000000000921331a200018061c2e
0 1 MATCHSTATE:1:0::|8hTc
frame 9 0>1 0000000b0201000000020000000001
frame 10 0>2 0000000b0201000000020000000001
frame 11 1>0 0000000b0201000000020100000001
frame 12 1>2 0000000b0201000000020100000001
frame 13 2>0 0000000b0201000000010200000000
frame 14 2>1 0000000b0201000000010200000000
";

/// Node 0 stops once its deal is chosen, starts again and asks what it has missed. The last line says nothing.
const STOPPED: &[u8] = b"connect 0 1
line 0 1 VERSION:2.0.0
tick 0
deliver 0
deliver 2
deliver 3
deliver 7
deliver 5
stop 0 0
tick 0
start 0
deliver 9
deliver 11
connect 0 1
line 0 1 VERSION:2.0.0
f
";

const STOPPED_ANSWERS: &[u8] = b"0 L # name/game/hands m1 l2.game 1
1 L # name/game/hands m1 l2.game 1
2 L # name/game/hands m1 l2.game 1
frame 0 0>1 0000000b0201000000010000000000
frame 1 0>2 0000000b0201000000010000000000
frame 2 1>0 0000000c020200000001000000000000
frame 3 0>1 0000001b02040000000100000000000101000000000921331a200018061c2e
frame 4 0>2 0000001b02040000000100000000000101000000000921331a200018061c2e
frame 5 0>1 0000001b02050000000100000000000101000000000921331a200018061c2e
frame 6 0>2 0000001b02050000000100000000000101000000000921331a200018061c2e
frame 7 1>0 0000001b02050000000100000000000101000000000921331a200018061c2e
frame 8 1>2 0000001b02050000000100000000000101000000000921331a200018061c2e
0 1 MATCHSTATE:1:0::|8hTc
0 E 90 Down
frame 9 0>1 00000006020700000000
frame 10 0>2 00000006020700000000
0 L # name/game/hands m1 l2.game 1
frame 11 1>0 0000001502060000000001000000000921331a200018061c2e
0 1 MATCHSTATE:1:0::|8hTc
E 110 BadScript
";

/// Plays the match: how the run ends. Here alone `play_run` is called, so that its contract is read once.
fn ran<R: Read, W: Write>(alloc: Global, reader: &mut R, writer: &mut W) -> Ending {
    play_run(alloc, MATCH, Some(L2), reader, writer)
}

/// Plays a script over such a reader and writer: the run ends as is due.
fn is_run(
    rt: &impl Abort,
    alloc: Global,
    script: &[u8],
    answers: &[u8],
    run: &Run,
) -> Result<(), AllocError> {
    let &(gives, takes, count, text) = run;
    let mut writer = Writing::new(alloc, takes);
    let ending = ran(alloc, &mut Reading::new(script, gives), &mut writer);
    is_begun(rt, &writer.taken, answers, count);
    ends(rt, alloc, ending, text)
}

/// A script that is answered at once.
static CALMLY_ANSWERED: Run = (Gives::Whole, Takes::All, CALM_ANSWERS.len(), "");

/// A script that is answered at once and in pieces; a reader that fails before `f` and its line feed; and flushes that
/// fail: the headers are flushed once they are written, and so is the answer to each line, empty or not.
static ANSWERED: [Run; 9] = [
    (Gives::Whole, Takes::All, STOPPED_ANSWERS.len(), ""),
    (Gives::InPieces, Takes::InPieces, STOPPED_ANSWERS.len(), ""),
    (
        Gives::Until(2, ErrorKind::BrokenPipe),
        Takes::All,
        STOPPED_ANSWERS.len() - b"E 110 BadScript\n".len(),
        "107 StreamFailed",
    ),
    (
        Gives::Until(2, ErrorKind::OutOfMemory),
        Takes::All,
        STOPPED_ANSWERS.len() - b"E 110 BadScript\n".len(),
        "92 OutOfMemory",
    ),
    (Gives::Whole, Takes::Flushes(0), 105, "107 StreamFailed"),
    (Gives::Whole, Takes::Flushes(1), 105, "107 StreamFailed"),
    (Gives::Whole, Takes::Flushes(2), 105, "107 StreamFailed"),
    (Gives::Whole, Takes::Flushes(3), 191, "107 StreamFailed"),
    (Gives::Whole, Takes::Flushes(4), 236, "107 StreamFailed"),
];

/// As far as the streams go.
#[test]
fn answers_a_script_of_nodes(rt: HostRuntime) -> Result<(), Fail> {
    is_run(&rt, rt.alloc(), CALM, CALM_ANSWERS, &CALMLY_ANSWERED)?;
    for run in &ANSWERED {
        is_run(&rt, rt.alloc(), STOPPED, STOPPED_ANSWERS, run)?;
    }
    Ok(())
}

#[test]
fn answers_each_line_of_nodes_before_the_next_is_awaited(rt: HostRuntime) {
    let flushed = Cell::new(false);
    let mut reader = Talker {
        rest: STOPPED,
        flushed: &flushed,
    };
    let mut writer = Listener {
        heard: Vec::new(rt.alloc()),
        flushed: &flushed,
    };
    let ending = ran(rt.alloc(), &mut reader, &mut writer);
    is_same(&rt, ending.status(), 0);
    is_written(&rt, &writer.heard, STOPPED_ANSWERS);
}

/// Sees that a beginning of the answers was taken, of so many bytes or a few more.
fn is_taken(rt: &impl Abort, taken: &[u8], most: usize) {
    holds(rt, most as u64, taken.len() >= most);
    holds(rt, most as u64, STOPPED_ANSWERS.starts_with(taken));
}

/// Plays a script whose writer fails once it has taken so many bytes: whether it did. Where it didn't, all was done.
fn stops_at(rt: &impl Abort, alloc: Global, most: usize) -> Result<bool, AllocError> {
    let mut writer = Writing::new(alloc, Takes::Until(most, ErrorKind::BrokenPipe));
    let ending = ran(alloc, &mut &*STOPPED, &mut writer);
    is_taken(rt, &writer.taken, most);
    if writer.has_failed {
        ends(rt, alloc, ending, "107 StreamFailed")?;
    } else {
        is_written(rt, &writer.taken, STOPPED_ANSWERS);
        ends(rt, alloc, ending, "")?;
    }
    Ok(writer.has_failed)
}

/// The writer fails behind each byte in turn, up to the last: then all of it is written.
#[test]
fn keeps_what_nodes_answered_before_the_writer_fails(rt: HostRuntime) -> Result<(), Fail> {
    for most in 0..10_000usize {
        if !stops_at(&rt, rt.alloc(), most)? {
            assert!(rt; most > HEADERS.len());
            return Ok(());
        }
    }
    panic!(rt; "answers without end")
}

/// Plays a script that comes byte by byte, with four reads at most: the headers are to be written.
fn play_by_four(rt: &impl Abort, alloc: Global, config: Config, bytes: &[u8]) -> Result<(), Stop> {
    let mut reader = Reading::new(bytes, Gives::OneByOne);
    let mut written = Vec::new(alloc);
    let ran = play_match(alloc, config, 4, &mut reader, &mut written);
    is_written(rt, &written, HEADERS);
    ran
}

/// Plays such a script: whether all of it is read.
fn is_read_by_four(
    rt: &impl Abort,
    alloc: Global,
    bytes: &[u8],
    is_read: bool,
) -> Result<(), Fail> {
    let config = config(alloc)?;
    reads_or_stops(rt, play_by_four(rt, alloc, config, bytes), is_read);
    Ok(())
}

#[test]
fn reads_a_script_of_nodes_so_often_and_no_more(rt: HostRuntime) -> Result<(), Fail> {
    is_same(&rt, MOST_READS, 16_777_216);
    is_read_by_four(&rt, rt.alloc(), b"xxx", true)?;
    is_read_by_four(&rt, rt.alloc(), b"xxxx", false)
}
