ghost use Rattle.std.specs.Prelude.{◌≡◌, ◌≤◌};

use crate::journal::commands;
use crate::samples::{FIVE, act, assert_same, holds};
use betting::Action;
use learner::{Chosen, Learner};
use paxos_wire::Ballot;
use paxos_wire::limits::{NODES, WINDOW};
use slot_log::{Command, SlotFault};
use std::alloc::{AllocError, Global};
use std::process::Abort;
use std::test::Fail;

/// What comes to a learner: a node's answer that it accepted in a ballot, or another node's word of what was chosen.
#[derive(Clone, Copy)]
enum Said {
    Accepted(u8, Ballot),
    Chosen,
}

/// What a call answers: what it completes, if anything, or why it is refused.
type Answer = Result<Option<Chosen>, SlotFault>;

/// What comes, of which slot and act, whether that completes a quorum for the act at the slot or why it is refused, and the
/// first slot that isn't known then.
type Call = (Said, u32, Action, Result<bool, SlotFault>, u32);

// Each call of a learner stands in one function here: what a contract says is read anew wherever its call stands.

/// What a learner of so many nodes answers.
fn answer(
    rt: &impl Abort,
    learner: &mut Learner,
    nodes: u8,
    said: Said,
    slot: u32,
    command: Command,
) -> Result<Answer, AllocError>
    requires { learner.old.learned.nodes ≡ nodes }
    ensures { learner.new.learned.nodes ≡ nodes }
{
    match said {
        Said::Accepted(from, ballot) => {
            assert!(rt; from < nodes);
            learner.on_accepted(from, ballot, slot, command)
        }
        Said::Chosen => match learner.on_chosen(slot, command)? {
            Ok(()) => Ok(Ok(None)),
            Err(fault) => Ok(Err(fault)),
        },
    }
}

/// The same where room is made before.
fn answer_in_room(
    rt: &impl Abort,
    learner: &mut Learner,
    nodes: u8,
    said: Said,
    slot: u32,
    command: Command,
) -> Result<Answer, AllocError>
    requires { learner.old.learned.nodes ≡ nodes }
    ensures { learner.new.learned.nodes ≡ nodes }
{
    learner.reserve(1, 1)?;
    match said {
        Said::Accepted(from, ballot) => {
            assert!(rt; from < nodes);
            Ok(learner.on_accepted_reserved(from, ballot, slot, command))
        }
        Said::Chosen => match learner.on_chosen_reserved(slot, command) {
            Ok(()) => Ok(Ok(None)),
            Err(fault) => Ok(Err(fault)),
        },
    }
}

/// Sees whether an answer tells the act as chosen at the slot, or why it is refused.
fn is_answer(
    rt: &impl Abort,
    found: &Answer,
    slot: u32,
    action: Action,
    completes: Result<bool, SlotFault>,
) {
    match found {
        Ok(Some(chosen)) => {
            assert_same(rt, completes, Ok(true));
            assert_same(rt, chosen.slot, slot);
            holds!(rt; chosen.command == act(action));
        }
        Ok(None) => assert_same(rt, completes, Ok(false)),
        Err(fault) => assert_same(rt, completes, Err(*fault)),
    }
}

/// Sees what is answered to a call, and the front then.
fn answers(rt: &impl Abort, learner: &mut Learner, nodes: u8, call: Call) -> Result<(), AllocError>
    requires { learner.old.learned.nodes ≡ nodes }
    ensures { learner.new.learned.nodes ≡ nodes }
{
    let (said, slot, action, wanted, front) = call;
    let found = answer(rt, learner, nodes, said, slot, act(action))?;
    is_answer(rt, &found, slot, action, wanted);
    assert_same(rt, learner.log().front(), front);
    Ok(())
}

/// Sees what is answered to calls.
fn answers_all(
    rt: &impl Abort,
    learner: &mut Learner,
    nodes: u8,
    calls: &[Call],
) -> Result<(), AllocError>
    requires { learner.old.learned.nodes ≡ nodes }
{
    for at in 0..calls.len() {
        answers(rt, learner, nodes, calls[at])?;
    }
    Ok(())
}

/// Sees what a learner of so many nodes answers to calls.
fn learns(rt: &impl Abort, alloc: Global, nodes: u8, calls: &[Call]) -> Result<(), AllocError> {
    assert!(rt; nodes <= NODES);
    let mut learner = Learner::new(alloc, nodes)?;
    answers_all(rt, &mut learner, nodes, calls)?;
    Ok(())
}

const FIRST: Ballot = Ballot { round: 1, node: 0 };

const SECOND: Ballot = Ballot { round: 2, node: 0 };

const THIRD: Ballot = Ballot { round: 2, node: 1 };

const FOURTH: Ballot = Ballot { round: 4, node: 2 };

/// The same answer of node 1 of 3 three times, which completes nothing, and that of node 2, which completes a quorum.
static ONE_NODE_THRICE: [Call; 4] = [
    (Said::Accepted(1, FIRST), 0, Action::Call, Ok(false), 0),
    (Said::Accepted(1, FIRST), 0, Action::Call, Ok(false), 0),
    (Said::Accepted(1, FIRST), 0, Action::Call, Ok(false), 0),
    (Said::Accepted(2, FIRST), 0, Action::Call, Ok(true), 1),
];

/// One answer three times is of one node.
#[test]
fn nodes_are_counted(rt: HostRuntime) -> Result<(), Fail> {
    learns(&rt, rt.alloc(), 3, &ONE_NODE_THRICE)?;
    Ok(())
}

/// The answers of five nodes, of two, two and one to a command at slot 0, and to a ballot at slot 1.
static SPLITS: [Call; 10] = [
    (Said::Accepted(0, FIRST), 0, Action::Call, Ok(false), 0),
    (Said::Accepted(1, FIRST), 0, Action::Call, Ok(false), 0),
    (Said::Accepted(2, FIRST), 0, Action::Fold, Ok(false), 0),
    (Said::Accepted(3, FIRST), 0, Action::Fold, Ok(false), 0),
    (Said::Accepted(4, FIRST), 0, Action::Raise(20), Ok(false), 0),
    (Said::Accepted(0, FIRST), 1, Action::Call, Ok(false), 0),
    (Said::Accepted(1, FIRST), 1, Action::Call, Ok(false), 0),
    (Said::Accepted(2, SECOND), 1, Action::Call, Ok(false), 0),
    (Said::Accepted(3, SECOND), 1, Action::Call, Ok(false), 0),
    (Said::Accepted(4, THIRD), 1, Action::Call, Ok(false), 0),
];

/// Five nodes that split into two, two and one choose nothing, be it by commands or by ballots.
#[test]
fn splits_choose_nothing(rt: HostRuntime) -> Result<(), Fail> {
    learns(&rt, rt.alloc(), 5, &SPLITS)?;
    Ok(())
}

/// Node 0 of 3 at slots 64 and 0, and the word of another command at slot 0, which the front passes; then the other two
/// nodes at slot 64, and node 0 again between them, which completes a quorum.
static NEXT_WINDOW: [Call; 6] = [
    (Said::Accepted(0, FOURTH), 64, Action::Call, Ok(false), 0),
    (Said::Accepted(0, FOURTH), 0, Action::Call, Ok(false), 0),
    (Said::Chosen, 0, Action::Fold, Ok(false), 1),
    (Said::Accepted(1, FOURTH), 64, Action::Call, Ok(false), 1),
    (Said::Accepted(0, FOURTH), 64, Action::Call, Ok(true), 1),
    (Said::Accepted(2, FOURTH), 64, Action::Call, Ok(false), 1),
];

/// The cell of slot 0 is that of slot 64 once the front has passed it.
#[test]
fn the_window_moves(rt: HostRuntime) -> Result<(), Fail> {
    learns(&rt, rt.alloc(), 3, &NEXT_WINDOW)?;
    Ok(())
}

/// A node's answer for some of five commands that stand at the slots from 0 on: the first of them, and how many. By slot,
/// whether its command is chosen by it, and the first slot that isn't known then.
type RunCall = (u8, usize, usize, [bool; 5], u32);

/// Node 1 of 3 at all five slots, and node 2 at slots 1 and 2, which completes quorums there; then node 0 at all five, which
/// completes those of the others, by the first of which the front passes slots 1 and 2.
static RUNS: [RunCall; 3] = [
    (1, 0, 5, [false, false, false, false, false], 0),
    (2, 1, 2, [false, true, true, false, false], 0),
    (0, 0, 5, [true, false, false, true, true], 5),
];

/// What a learner of three nodes answers to a run.
fn answer_to_run(
    rt: &impl Abort,
    learner: &mut Learner,
    from: u8,
    slot: u32,
    commands: &[Command],
) -> Result<Result<[bool; WINDOW], SlotFault>, AllocError>
    requires { learner.old.learned.nodes ≡ 3 }
    ensures { learner.new.learned.nodes ≡ 3 }
{
    assert!(rt; from < 3);
    assert!(rt; commands.len() <= WINDOW);
    learner.on_accepted_run(from, FIRST, slot, commands)
}

/// Sees that a run from this one of the five slots on completes quorums at these.
fn completes(rt: &impl Abort, found: &[bool; WINDOW], first: usize, count: usize, chosen: &[bool])
    requires { first ≤ 5 }
{
    for place in 0..WINDOW {
        let expected = place < count && first + place < chosen.len() && chosen[first + place];
        assert_same(rt, found[place], expected);
    }
}

/// Sees what is answered to a run, and the front then.
fn answers_run(rt: &impl Abort, learner: &mut Learner, call: &RunCall) -> Result<(), AllocError>
    requires { learner.old.learned.nodes ≡ 3 }
    ensures { learner.new.learned.nodes ≡ 3 }
{
    let (from, first, count, chosen, front) = *call;
    assert!(rt; first <= 5);
    assert!(rt; count <= 5 - first);
    let five = commands(rt, &FIVE, 5);
    let run = &five.as_slice()[first..first + count];
    match answer_to_run(rt, learner, from, first as u32, run)? {
        Ok(found) => completes(rt, &found, first, count, &chosen),
        Err(fault) => panic!(rt; "{fault}"),
    }
    assert_same(rt, learner.log().front(), front);
    Ok(())
}

/// Each slot of a run is counted by itself, the lowest first, and told where it completes a quorum.
#[test]
fn runs_are_counted(rt: HostRuntime) -> Result<(), Fail> {
    let mut learner = Learner::new(rt.alloc(), 3)?;
    for call in &RUNS {
        answers_run(&rt, &mut learner, call)?;
    }
    Ok(())
}

/// Where there is room, a call wants no memory.
#[test]
fn calls_with_room(rt: HostRuntime) -> Result<(), Fail> {
    let mut learner = Learner::new(rt.alloc(), 3)?;
    let said = Said::Accepted(0, FIRST);
    let found = answer_in_room(&rt, &mut learner, 3, said, 0, act(Action::Call))?;
    is_answer(&rt, &found, 0, Action::Call, Ok(false));
    Ok(())
}
