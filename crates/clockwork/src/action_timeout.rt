//! What is known of the seat to act, and when an order to play for it may be given again.

ghost use Rattle.std.specs.Prelude.{◌≡◌};
ghost use Rattle.clockwork.specs.ActionTimeout.{is_able, order_left, seated_after};

use crate::limits::ORDERED_AGAIN;
use crate::waits::left;

/// What a process knows of the seat to act, in a match in which one that does nothing is played for.
///
/// Moments are those of `Known`; lengths of time are whole microseconds.
#[derive(Clone, Copy, Debug)]
pub struct Awaited {
    /// The present moment, at most `LATEST`.
    pub time: u64,
    /// How long a seat may hold the table, at most `LATEST`.
    pub patience: u64,
    /// The match is over here.
    pub over: bool,
    /// A hand runs here.
    pub hand_runs: bool,
    /// The node and its present peers are more than half of all (`is_quorate`).
    pub quorate: bool,
    /// The node learns what was chosen before (`replays`).
    pub replays: bool,
    /// A bot sits at this node for the seat.
    pub sits_here: bool,
    /// Some present peer has told that one sits there.
    pub sits_elsewhere: bool,
    /// How many present peers come before this node, at most `MOST_PEERS`: where the seat sits here, of those at which it
    /// sits too, as many as have a lower number; else as many of all (`rank`).
    pub rank: usize,
    /// The latest of these: the front moved, the node became quorate, the process began, and the moments at which the wait for
    /// the seat began anew (`SeatWatch::since`).
    pub since: u64,
    /// When this process last ordered that a seat be played for, where it has since the front moved.
    pub ordered: Option<u64>,
}

/// Since when a seat is waited for by a node by which the wait begins anew at this moment, where the front last moved at that
/// one: since now, but where it was begun anew before while the front stood, it stays at that. So nobody holds the table by
/// sitting down again and again; by another node it begins anew once too.
pub(crate) fn seated_after(earlier: Option<u64>, moved: u64, now: u64) -> u64
    ensures { result ≡ seated_after earlier moved now }
{
    match earlier {
        Some(moment) if moved <= moment => moment,
        _ => now,
    }
}

/// Whether a node may order that a seat is played for: the match is on, a hand runs, the node is quorate and doesn't replay.
#[tactic(auto, unfolding(crate::specs::ActionTimeout::is_able))]
pub(crate) fn is_able(awaited: &Awaited) -> bool
    ensures { result ≡ is_able awaited.now }
{
    !awaited.over && awaited.hand_runs && awaited.quorate && !awaited.replays
}

/// What is left until it may be ordered again.
pub(crate) fn order_left(time: u64, ordered: Option<u64>, patience: u64) -> u64
    ensures { result ≡ order_left time ordered patience }
{
    match ordered {
        Some(moment) => left(time, moment, patience.min(ORDERED_AGAIN)),
        None => 0,
    }
}
