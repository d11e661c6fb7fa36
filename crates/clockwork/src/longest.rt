//! The longest of what was measured in the last minute.

ghost use Rattle.std.specs.Prelude.{◌≡◌};
ghost use Rattle.clockwork.specs.Measuring.{fresh, moved_on, noted, lately};

use crate::limits::PART;

/// The longest of what was measured in the last minute, in whole microseconds.
///
/// What was measured counts for a minute (`2 * PART`), and for less than half a minute more, as
/// `laws::what_was_measured_counts_for_a_minute` says; no quick one behind it has it forgotten sooner. Three parts are kept,
/// of half a minute each.
#[derive(Clone, Copy, Debug, PartialEq, Eq)]
pub struct Longest {
    /// When the newest part began.
    pub begun: u64,
    /// The longest that was measured since then; 0 where nothing was.
    pub newest: u64,
    /// And in the half minute before that,
    pub middle: u64,
    /// and in the one before.
    pub oldest: u64,
}

/// One that was measured.
#[derive(Clone, Copy, Debug)]
pub struct Measure {
    /// How long it was, in whole microseconds.
    pub length: u64,
    /// The moment at which that was known.
    pub at: u64,
}

impl Longest {
    /// Nothing was measured.
    pub fn new() -> Longest
        ensures { result ≡ fresh }
    {
        Longest {
            begun: 0,
            newest: 0,
            middle: 0,
            oldest: 0,
        }
    }

    /// The same at a later moment: parts that have ended move on, and the oldest is forgotten.
    fn moved_on(self, now: u64) -> Longest
        ensures { result ≡ moved_on self now }
    {
        let passed = now.saturating_sub(self.begun);
        if passed < PART {
            self
        } else if passed < 2 * PART {
            Longest {
                begun: self.begun + PART,
                newest: 0,
                middle: self.newest,
                oldest: self.middle,
            }
        } else if passed < 3 * PART {
            Longest {
                begun: self.begun + 2 * PART,
                newest: 0,
                middle: 0,
                oldest: self.newest,
            }
        } else {
            Longest {
                begun: now,
                newest: 0,
                middle: 0,
                oldest: 0,
            }
        }
    }

    /// So long was measured, as is known at this moment.
    pub fn note(&mut self, length: u64, now: u64)
        ensures { self.new ≡ noted self.old length now }
    {
        let parts = self.moved_on(now);
        *self = Longest {
            newest: parts.newest.max(length),
            ..parts
        };
    }

    /// The longest of the last minute, at this moment; 0 where nothing was measured.
    pub fn lately(self, now: u64) -> u64
        ensures { result ≡ lately self now }
    {
        let parts = self.moved_on(now);
        parts.newest.max(parts.middle.max(parts.oldest))
    }
}
