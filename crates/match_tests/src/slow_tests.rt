//! The match about an outage, one call of a link of which is slow.

use crate::course::{Answer, TURNS, bots_everywhere, disks, logs, outage, server, told, turn};
use crate::samples::{assert_bytes_of, assert_holds, assert_same, holds};
use match_links::{Links, MemoryLinks, Reached};
use promise_store::Disk;
use serving::{Server, Turn};
use std::alloc::{AllocError, Global};
use std::process::Abort;
use std::test::Fail;

/// What came of a match.
#[derive(Drop)]
struct Outcome {
    answers: Vec<Answer>,
    told: Vec<u8>,
    logs: Vec<u8>,
    /// What the call of a link that was slow was to reach; none where none was.
    slowed: Option<Reached>,
}

/// Whether no turn comes behind one that was answered so.
fn is_last(answer: Answer) -> bool {
    answer.is_err() || answer == Ok(Turn::Over)
}

/// What turns answer, up to the last.
fn answers<D: Disk + Drop, L: Links + Drop>(
    alloc: Global,
    server: &mut Server<D, L>,
) -> Result<Vec<Answer>, AllocError> {
    let mut answers = Vec::new(alloc);
    for _ in 0..TURNS {
        let answer = turn(server);
        answers.push(answer)?;
        if is_last(answer) {
            break;
        }
    }
    Ok(answers)
}

/// What comes of a match that this server serves.
fn outcome_of<D: Disk + Drop>(
    alloc: Global,
    server: &mut Server<D, MemoryLinks>,
) -> Result<Outcome, AllocError> {
    let answers = answers(alloc, server)?;
    let links = server.links();
    Ok(Outcome {
        answers,
        told: told(alloc, links)?,
        logs: logs(alloc, links)?,
        slowed: links.slowed(),
    })
}

/// What comes of the match in which node 1 is out from the first command to the second; of the calls of links the one of
/// the first number fails, and that of the second is slow. None where no server could be made.
fn served(
    rt: &impl Abort,
    alloc: Global,
    fails: u64,
    slow: u64,
) -> Result<Option<Outcome>, AllocError> {
    let mut links = bots_everywhere(alloc, fails)?;
    links.slow_down(slow);
    let disks = disks(alloc, 0, 0)?;
    let outages = outage(alloc, 1, 1, Some(2))?;
    match server(rt, alloc, disks, links, outages)? {
        None => Ok(None),
        Some(mut server) => Ok(Some(outcome_of(alloc, &mut server)?)),
    }
}

/// Asserts that in the match of this number as many turns were answered alike.
fn assert_answers(rt: &impl Abort, call: u64, found: &[Answer], due: &[Answer]) {
    assert_holds(rt, call, found.len() == due.len());
    for place in 0..found.len() {
        assert_same(rt, Some(found[place]), due.get(place).copied());
    }
}

/// Asserts that in the match of this number turns were answered alike, and the same was told and logged.
fn assert_alike(rt: &impl Abort, call: u64, found: &Outcome, due: &Outcome) {
    assert_answers(rt, call, &found.answers, &due.answers);
    assert_bytes_of(rt, call, &found.told, &due.told);
    assert_bytes_of(rt, call, &found.logs, &due.logs);
}

/// The number of the first turn that waited.
fn first_wait(answers: &[Answer]) -> Option<usize> {
    answers
        .iter()
        .position(|answer| matches!(answer, Ok(Turn::Waits { .. })))
}

/// Whether a turn waited for the seat of another, at its node where that tells one.
fn waits_for(waiting: Answer, next: Answer) -> bool {
    let (Ok(Turn::Waits { seat, node }), Ok(next)) = (waiting, next) else {
        return false;
    };
    match next {
        Turn::Seated {
            seat: seated,
            node: at,
        } => seated == seat && at == node,
        Turn::Read(met) | Turn::Gone(met) => met == seat,
        _ => false,
    }
}

/// Asserts that one turn waited for the seat of the next one, and that all else came as where no call is slow.
fn assert_waited(rt: &impl Abort, call: u64, mut found: Outcome, at: usize, calm: &Outcome) {
    assert_holds(rt, call, found.slowed == Some(Reached::Seat));
    assert!(rt; at < found.answers.len() && at < calm.answers.len());
    let waiting = found.answers.remove(at);
    assert_holds(rt, call, waits_for(waiting, calm.answers[at]));
    assert_alike(rt, call, &found, calm);
}

/// Asserts that a match whose call of this number was slow, and no wait for a seat, came as where that call fails.
fn assert_as_failed(
    rt: &impl Abort,
    alloc: Global,
    call: u64,
    found: &Outcome,
) -> Result<(), AllocError> {
    let failed = served(rt, alloc, call, 0)?.expect(rt, "a server");
    assert_alike(rt, call, found, &failed);
    Ok(())
}

/// What comes of a match of whose links one call is slow.
#[derive(Clone, Copy, PartialEq, Eq)]
enum Slowness {
    /// So many calls weren't made.
    None,
    /// It was a wait for a seat: one turn waited.
    Waited,
    /// It was another call, which is as one that fails.
    Failed,
}

/// Asserts what came of the match whose call of this number was slow: which kind of call that was.
fn assert_slow(
    rt: &impl Abort,
    alloc: Global,
    call: u64,
    found: Outcome,
    calm: &Outcome,
) -> Result<Slowness, AllocError> {
    if found.slowed.is_none() {
        assert_alike(rt, call, &found, calm);
        return Ok(Slowness::None);
    }
    match first_wait(&found.answers) {
        Some(at) => {
            assert_waited(rt, call, found, at, calm);
            Ok(Slowness::Waited)
        }
        None => {
            assert_as_failed(rt, alloc, call, &found)?;
            Ok(Slowness::Failed)
        }
    }
}

/// A match whose call of this number is slow: which kind of call that is.
fn slows_at(
    rt: &impl Abort,
    alloc: Global,
    call: u64,
    calm: &Outcome,
) -> Result<Slowness, AllocError> {
    match served(rt, alloc, 0, call)? {
        None => {
            holds!(rt; served(rt, alloc, call, 0)?.is_none());
            Ok(Slowness::Failed)
        }
        Some(found) => assert_slow(rt, alloc, call, found, calm),
    }
}

/// Whether a turn awaited a seat or read from it.
fn is_meeting(answer: Answer) -> bool {
    matches!(
        answer,
        Ok(Turn::Seated { .. } | Turn::Read(_) | Turn::Gone(_))
    )
}

/// How many turns awaited a seat or read from it.
fn meetings(answers: &[Answer]) -> usize {
    let mut count = 0usize;
    for answer in answers {
        count = count.saturating_add(usize::from(is_meeting(*answer)));
    }
    count
}

/// Each call of a link is slow in turn, up to the first that isn't made. Where a seat was waited for, one turn more says
/// so, and nothing else changes; any other call is as one that fails.
#[test]
fn each_call_of_a_link_is_slow_in_turn(rt: HostRuntime) -> Result<(), Fail> {
    let alloc = rt.alloc();
    let calm = served(&rt, alloc, 0, 0)?.expect(&rt, "a server");
    let mut waits = 0usize;
    for call in 1..2_000u64 {
        match slows_at(&rt, alloc, call, &calm)? {
            Slowness::None => {
                assert_same(&rt, waits, meetings(&calm.answers));
                return Ok(());
            }
            Slowness::Waited => waits = waits.saturating_add(1),
            Slowness::Failed => {}
        }
    }
    assert!(rt; false);
    Ok(())
}
