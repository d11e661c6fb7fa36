ghost use Rattle.std.specs.Prelude.{◌≡◌, ◌<◌};

use crate::samples::{act, assert_same};
use betting::Action;
use paxos_wire::{Ballot, Entries};
use proposer::{Accept, BallotsSpent, Prepare, ProposeFault, Proposer};
use std::process::Abort;

/// A call of a proposer, and what it answers, if anything.
#[derive(Clone, Copy)]
enum Call {
    /// A ballot above the one that was seen, from a slot on.
    Begin(Ballot, u32, Result<Prepare, BallotsSpent>),
    /// A node's promise of a ballot from a slot on, which tells nothing.
    Promise(u8, Ballot, u32),
    Idle,
    /// A proposal at a slot, with the own act: in which ballot which act is proposed, if any.
    Propose(u32, Action, Result<Option<(Ballot, Action)>, ProposeFault>),
}

/// A call, and then the ballot that is begun, if any, and whether it leads.
type Step = (Call, Option<Ballot>, bool);

// Each call of a proposer stands in one function here: what a contract says is read anew wherever its call stands.

/// A ballot is begun with this Prepare, or isn't.
fn begins(
    rt: &impl Abort,
    proposer: &mut Proposer,
    seen: Ballot,
    slot: u32,
    wanted: Result<Prepare, BallotsSpent>,
)
    ensures { proposer.new.nodes ≡ proposer.old.nodes }
{
    assert_same(rt, proposer.begin(seen, slot), wanted);
}

/// Counts a node's promise.
fn promises(proposer: &mut Proposer, from: u8, ballot: Ballot, slot: u32)
    requires { from < proposer.old.nodes }
    ensures { proposer.new.nodes ≡ proposer.old.nodes }
{
    proposer.on_promise(from, ballot, slot, &Entries::new());
}

/// The proposal of an act at a slot in a ballot.
fn proposal(slot: u32, ballot: Ballot, action: Action) -> Accept {
    Accept {
        ballot,
        slot,
        command: act(action),
    }
}

/// A proposal at the slot comes to this.
fn proposes(
    rt: &impl Abort,
    proposer: &mut Proposer,
    slot: u32,
    own: Action,
    wanted: Result<Option<(Ballot, Action)>, ProposeFault>,
)
    ensures { proposer.new.nodes ≡ proposer.old.nodes }
{
    let wanted = match wanted {
        Ok(Some((ballot, action))) => Ok(Some(proposal(slot, ballot, action))),
        Ok(None) => Ok(None),
        Err(fault) => Err(fault),
    };
    assert_same(rt, proposer.propose(slot, Some(act(own))), wanted);
}

/// Makes a call of the proposer of so many nodes.
fn takes(rt: &impl Abort, proposer: &mut Proposer, nodes: u8, call: Call)
    requires { proposer.old.nodes ≡ nodes }
    ensures { proposer.new.nodes ≡ nodes }
{
    match call {
        Call::Begin(seen, slot, wanted) => begins(rt, proposer, seen, slot, wanted),
        Call::Promise(from, ballot, slot) => {
            assert!(rt; from < nodes);
            promises(proposer, from, ballot, slot);
        }
        Call::Idle => proposer.turn_idle(),
        Call::Propose(slot, own, wanted) => proposes(rt, proposer, slot, own, wanted),
    }
}

/// The proposer has begun this ballot, if any, and leads or doesn't.
fn stands(rt: &impl Abort, proposer: &Proposer, ballot: Option<Ballot>, is_leading: bool) {
    assert_same(rt, proposer.ballot(), ballot);
    assert_same(rt, proposer.is_leading(), is_leading);
}

/// Takes the steps of the proposer of so many nodes.
fn takes_all(rt: &impl Abort, proposer: &mut Proposer, nodes: u8, steps: &[Step])
    requires { proposer.old.nodes ≡ nodes }
{
    for at in 0..steps.len() {
        let (call, ballot, is_leading) = steps[at];
        takes(rt, proposer, nodes, call);
        stands(rt, proposer, ballot, is_leading);
    }
}

/// The ballot of round 1 of node 0.
const FIRST: Ballot = Ballot { round: 1, node: 0 };

/// Two of three nodes, which tell nothing, make node 0 lead: the last slot of its window is proposed once, and none behind
/// it; idle it proposes nothing.
static WINDOW: [Step; 8] = [
    (
        Call::Begin(
            Ballot { round: 0, node: 0 },
            0,
            Ok(Prepare {
                ballot: FIRST,
                slot: 0,
            }),
        ),
        Some(FIRST),
        false,
    ),
    (Call::Promise(0, FIRST, 0), Some(FIRST), false),
    (Call::Promise(1, FIRST, 0), Some(FIRST), true),
    (
        Call::Propose(63, Action::Call, Ok(Some((FIRST, Action::Call)))),
        Some(FIRST),
        true,
    ),
    (Call::Propose(63, Action::Call, Ok(None)), Some(FIRST), true),
    (
        Call::Propose(64, Action::Call, Err(ProposeFault::OutOfWindow)),
        Some(FIRST),
        true,
    ),
    (Call::Idle, None, false),
    (Call::Propose(64, Action::Call, Ok(None)), None, false),
];

#[test]
fn a_window_of_64_slots(rt: HostRuntime) {
    let mut proposer = Proposer::new(0, 3);
    takes_all(&rt, &mut proposer, 3, &WINDOW);
}
