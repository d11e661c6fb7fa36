//! Who came to ports of seats and found no place, for notes: of each seat one a second at most, which says how many it were.

ghost use Rattle.std.specs.Prelude.{◌≡◌, ◌<◌, ℕ};
ghost use Rattle.node_service.specs.declared.limits.TheConstants.{SEATS as COUNT};
ghost use Rattle.node_service.specs.TurnedAway.{none_told, told_of, due_of, Becomes};

use crate::limits::{PLACES, SEATS};
use crate::wrong_tokens::is_noted;

/// How many of those who came to a seat were told by its last note and those before, and when that was, in whole microseconds.
#[derive(Clone, Copy)]
pub(crate) struct TurnedAwayTold {
    count: u64,
    noted: Option<u64>,
}

/// The same of each seat, by its number.
#[derive(Clone, Copy)]
pub(crate) struct TurnedAway {
    all: [TurnedAwayTold; PLACES],
}

/// No note was made.
const NONE: TurnedAwayTold = TurnedAwayTold {
    count: 0,
    noted: None,
};

impl TurnedAway {
    /// No note of any seat was made.
    pub(crate) fn new() -> TurnedAway
        ensures { (seat : ℕ) → told_of result seat ≡ none_told }
    {
        TurnedAway {
            all: [NONE; PLACES],
        }
    }

    /// What was told of a seat; nothing where there is no such seat.
    fn at(&self, seat: u8) -> TurnedAwayTold
        ensures { result ≡ told_of self.now seat }
    {
        match self.all.get(seat as usize) {
            Some(told) => *told,
            None => NONE,
        }
    }

    /// How many are to be told now of a seat at which it were so many so far; 0 where all are told, or where the last note is too
    /// new.
    pub(crate) fn due(&self, seat: u8, so_far: u64, now: u64) -> u32
        ensures { result ≡ due_of (told_of self.now seat) so_far now }
    {
        let TurnedAwayTold { count, noted } = self.at(seat);
        if is_noted(noted, now) {
            so_far.saturating_sub(count).min(u32::MAX as u64) as u32
        } else {
            0
        }
    }

    /// All who came to a seat so far are told now.
    pub(crate) fn tell(&mut self, seat: u8, so_far: u64, now: u64)
        requires { seat < COUNT }
        ensures { Becomes seat so_far now self.old self.new }
    {
        if seat < SEATS {
            self.all[seat as usize] = TurnedAwayTold {
                count: so_far,
                noted: Some(now),
            };
        }
    }
}
