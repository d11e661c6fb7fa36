//! When the seat to act is played for, so that it is fair.

ghost use Rattle.std.specs.Prelude.{◌≡◌, ◌+◌, ◌*◌, ◌≤◌, ◌<◌, ℕ};
ghost use Rattle.clockwork.specs.declared.answer.Due.TheVariants.{Now, Nothing};
ghost use Rattle.clockwork.specs.declared.limits.TheConstants.{LATEST, LONGEST_PATIENCE, MOST_PEERS, MOST_NODES, LOOK, STEP};
ghost use Rattle.clockwork.specs.ActionTimeout.{IsOrderedLongAgo};
ghost use Rattle.clockwork.specs.Orders.{turn_wait, more_of, wait_of, longest_of, has_stood, may_be_kept_out, turn_since, is_to_order, turn_left, order_due_of, IsAble, IsItsTurn, HasBeenPatient};

use crate::action_timeout::{Awaited, is_able, order_left};
use crate::answer::Due;
use crate::clock::due_in;
use crate::limits::{LATEST, LOOK, SLOW_TURN, SLOW_TURNS, STEP};
use crate::waits::left;

/// What a process knows of the seat to act, in a match in which one that does nothing is played for, and of itself.
#[derive(Clone, Copy, Debug)]
pub struct Expected {
    /// What is known of the seat. Its `since` is the latest of `stood` and of the moments at which the wait began anew
    /// (`SeatWatch::since`); its `patience` is at most a day.
    pub awaited: Awaited,
    /// The process didn't sleep, or has heard enough since (`Waking`).
    pub is_awake: bool,
    /// Each seat has come, or has been waited for long enough (`Opening`).
    pub is_open: bool,
    /// Where the seat is given up: how many of its turns were played for since then (`SeatWatch::turns`).
    pub turns: Option<u32>,
    /// The latest of these: the front moved, the node became quorate, the process began, and seats began to be played for
    /// (`Opening::stood`).
    pub stood: u64,
    /// How much of the time since then the process slept through (`Waking`): it doesn't count.
    pub slept: u64,
    /// How many nodes the match has, at most `MOST_NODES`.
    pub nodes: u8,
    /// The latest moment at which a caller at the seat's port here was closed for want of a place, or some were left in its queue
    /// behind those that a turn takes; 0 where there was none.
    pub crowded: u64,
}

/// How long a turn waits of a seat that isn't given up, or that is, and of which so many were played for since.
pub(crate) fn turn_wait(patience: u64, turns: Option<u32>) -> u64
    ensures { result ≡ turn_wait patience turns }
{
    match turns {
        Some(turns) => {
            if turns < SLOW_TURNS {
                patience.min(SLOW_TURN)
            } else {
                0
            }
        }
        None => patience,
    }
}

/// What a wait has more: of several nodes whose order it would be one after another plays for the seat, and the time that the
/// process slept through doesn't count.
fn more_of(expected: &Expected) -> u64
    requires rank { expected.now.awaited.rank ≤ MOST_PEERS }
    ensures value { result ≡ more_of expected.now }
    ensures fits { result ≤ STEP * MOST_PEERS + LATEST }
{
    STEP * expected.awaited.rank as u64 + expected.slept.min(LATEST)
}

/// How long the seat is waited for at this turn.
fn wait_of(expected: &Expected) -> u64
    requires patience { expected.now.awaited.patience ≤ LONGEST_PATIENCE }
    requires rank { expected.now.awaited.rank ≤ MOST_PEERS }
    ensures value { result ≡ wait_of expected.now }
{
    turn_wait(expected.awaited.patience, expected.turns) + more_of(expected)
}

/// How long it is waited for at most, whatever it does.
fn longest_of(expected: &Expected) -> u64
    requires patience { expected.now.awaited.patience ≤ LONGEST_PATIENCE }
    requires rank { expected.now.awaited.rank ≤ MOST_PEERS }
    requires nodes { expected.now.nodes ≤ MOST_NODES }
    ensures value { result ≡ longest_of expected.now }
{
    (expected.nodes as u64 + 1) * expected.awaited.patience + more_of(expected)
}

/// Whether the seat may be kept out at its port: it sits nowhere as far as is known, and isn't given up.
fn may_be_kept_out(expected: &Expected) -> bool
    ensures { result ≡ may_be_kept_out expected.now }
{
    !expected.awaited.sits_here && !expected.awaited.sits_elsewhere && !expected.turns.is_some()
}

/// Since when it is waited for at this turn: where it may be kept out at its port, since a caller there last was at the earliest.
fn turn_since(expected: &Expected) -> u64
    ensures { result ≡ turn_since expected.now }
{
    if may_be_kept_out(expected) {
        expected.awaited.since.max(expected.crowded)
    } else {
        expected.awaited.since
    }
}

/// Whether the seat has held the table for as long as one may at most.
fn has_stood(expected: &Expected) -> bool
    requires patience { expected.now.awaited.patience ≤ LONGEST_PATIENCE }
    requires rank { expected.now.awaited.rank ≤ MOST_PEERS }
    requires nodes { expected.now.nodes ≤ MOST_NODES }
    ensures { result ≡ has_stood expected.now }
{
    longest_of(expected) <= expected.awaited.time.saturating_sub(expected.stood)
}

/// Whether the order would be this node's: it is able to give it, awake, and the match open; and the seat sits here, or as
/// far as is known nowhere, or has held the table for as long as one may at most.
#[tactic(auto, unfolding(crate::specs::Orders::is_to_order))]
fn is_to_order(expected: &Expected) -> bool
    requires patience { expected.now.awaited.patience ≤ LONGEST_PATIENCE }
    requires rank { expected.now.awaited.rank ≤ MOST_PEERS }
    requires nodes { expected.now.nodes ≤ MOST_NODES }
    ensures { result ≡ is_to_order expected.now }
{
    is_able(&expected.awaited)
        && expected.is_awake
        && expected.is_open
        && (expected.awaited.sits_here || !expected.awaited.sits_elsewhere || has_stood(expected))
}

/// What is left until a node whose order it would be is to give it.
#[tactic(auto, unfolding(crate::specs::Orders::turn_left))]
fn turn_left(expected: &Expected) -> u64
    requires patience { expected.now.awaited.patience ≤ LONGEST_PATIENCE }
    requires rank { expected.now.awaited.rank ≤ MOST_PEERS }
    requires nodes { expected.now.nodes ≤ MOST_NODES }
    ensures { result ≡ turn_left expected.now }
{
    let awaited = &expected.awaited;
    let turn = left(awaited.time, turn_since(expected), wait_of(expected));
    let longest = left(awaited.time, expected.stood, longest_of(expected));
    turn.min(longest).max(order_left(awaited.time, awaited.ordered, awaited.patience))
}

/// Whether a node is to order now that the seat to act is played for (`Due::Now`), by what its process knows.
///
/// A node at which the seat sits orders it once nothing has happened for `patience`; where the seat sits at none, the present
/// nodes do, and no caller at its port was kept out for as long; where it has held the table for (nodes + 1) times the patience, each does. Of several each does it a step later
/// than the one before it. A seat that is given up is waited for half a second at each of twenty turns, and then not at all.
/// A node that replays or slept orders nothing, and none does before each seat has come, or `start` has passed.
/// `laws::an_order_comes_at_the_latest` says that it comes.
pub fn order_due(expected: &Expected) -> Due
    requires time { expected.now.awaited.time ≤ LATEST }
    requires patience { expected.now.awaited.patience ≤ LONGEST_PATIENCE }
    requires rank { expected.now.awaited.rank ≤ MOST_PEERS }
    requires nodes { expected.now.nodes ≤ MOST_NODES }
    ensures value { result ≡ order_due_of expected.now }
    ensures able { result ≡ Now → IsAble expected.now }
    ensures turn { result ≡ Now → IsItsTurn expected.now }
    ensures patient { result ≡ Now → HasBeenPatient expected.now }
    ensures spaced { result ≡ Now → IsOrderedLongAgo expected.now.awaited }
    ensures later { (until : ℕ) → result ≡ Nothing until → (expected.now.awaited.time < until) × (until ≤ expected.now.awaited.time + LOOK) }
{
    order_due_of(expected)
}

#[tactic(auto, unfolding(crate::specs::Orders::order_due_of))]
fn order_due_of(expected: &Expected) -> Due
    requires time { expected.now.awaited.time ≤ LATEST }
    requires patience { expected.now.awaited.patience ≤ LONGEST_PATIENCE }
    requires rank { expected.now.awaited.rank ≤ MOST_PEERS }
    requires nodes { expected.now.nodes ≤ MOST_NODES }
    ensures { result ≡ order_due_of expected.now }
{
    if is_to_order(expected) {
        due_in(expected.awaited.time, turn_left(expected))
    } else {
        due_in(expected.awaited.time, LOOK)
    }
}
