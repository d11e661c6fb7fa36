//! Since when seats are played for at all.

ghost use Rattle.std.specs.Prelude.{◌≡◌};
ghost use Rattle.clockwork.specs.Openings.{opening_of, first_after, opened_after, looked, is_open, stood_open};
ghost use Rattle.clockwork.specs.SeatWatches.{has_passed};

use crate::seat_watch::has_passed;

/// Since when a process plays for seats: since each has come, or has been waited for long enough. Moments are whole
/// microseconds since one that stays the same as long as the process lives.
#[derive(Clone, Copy, Debug, PartialEq, Eq)]
pub struct Opening {
    /// When the process first had a quorum.
    pub first: Option<u64>,
    /// When each seat had come, or `start` had passed since then.
    pub opened: Option<u64>,
}

/// The earlier moment, or the present one where something is so for the first time.
fn first_after(earlier: Option<u64>, is_so: bool, now: u64) -> Option<u64>
    ensures { result ≡ first_after earlier is_so now }
{
    match earlier {
        Some(moment) => Some(moment),
        None => { if is_so { Some(now) } else { None } }
    }
}

impl Opening {
    /// The process begins.
    pub fn new() -> Opening
        ensures { result ≡ opening_of }
    {
        Opening {
            first: None,
            opened: None,
        }
    }

    /// At this moment the node has a quorum or hasn't, and each seat has come or not; a match waits for those that haven't for
    /// `start` from its first quorum on.
    pub fn look(&mut self, is_quorate: bool, all_came: bool, start: u64, now: u64)
        ensures { self.new ≡ looked self.old is_quorate all_came start now }
    {
        self.first = first_after(self.first, is_quorate, now);
        self.opened = first_after(
            self.opened,
            all_came || has_passed(self.first, start, now),
            now,
        );
    }

    /// Whether seats are played for.
    pub fn is_open(&self) -> bool
        ensures { result ≡ is_open self.now }
    {
        self.opened.is_some()
    }

    /// The later of a moment and of the one since which seats are played for.
    pub fn stood(&self, stood: u64) -> u64
        ensures { result ≡ stood_open self.now stood }
    {
        stood.max(self.opened.unwrap_or(0))
    }
}
