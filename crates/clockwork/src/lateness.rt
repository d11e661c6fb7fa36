//! By how much turns of a process come later than they were to.

ghost use Rattle.std.specs.Prelude.{◌≡◌};
ghost use Rattle.clockwork.specs.LateTurns.{punctual, late_after, counted_of};

use crate::limits::STRETCH;

/// By how much turns of a process came later than they were to, lately.
///
/// One that has little of a processor makes several turns whenever it has it, of which the first alone is late: so of each
/// stretch of a second (`STRETCH`) the most counts by which a turn was late, and of two such stretches in a row the lesser, so that
/// one hang doesn't count, as `laws::one_late_turn_counts_for_nothing` says. A stretch begins with the first turn that comes a
/// second or more after the one before began: where turns come more rarely each of them is one.
#[derive(Clone, Copy, Debug, PartialEq, Eq)]
pub struct Lateness {
    /// When the newest stretch began.
    pub begun: u64,
    /// The most by which a turn of it was late, in whole microseconds; 0 where none was.
    pub newest: u64,
    /// And in the stretch before.
    pub before: u64,
}

/// A turn of a process.
#[derive(Clone, Copy, Debug)]
pub struct LateTurn {
    /// How much later it came than it was to, in whole microseconds.
    pub late: u64,
    /// The moment at which it came.
    pub at: u64,
}

impl Lateness {
    /// No turn has come.
    pub fn new() -> Lateness
        ensures { result ≡ punctual }
    {
        Lateness {
            begun: 0,
            newest: 0,
            before: 0,
        }
    }

    /// A turn came so much later than it was to, at this moment.
    pub fn note(&mut self, late: u64, now: u64)
        ensures { self.new ≡ late_after self.old late now }
    {
        *self = if now.saturating_sub(self.begun) < STRETCH {
            Lateness {
                newest: self.newest.max(late),
                ..*self
            }
        } else {
            Lateness {
                begun: now,
                newest: late,
                before: self.newest,
            }
        };
    }

    /// What counts: of two stretches in a row the lesser.
    pub fn counted(&self) -> u64
        ensures { result ≡ counted_of self.now }
    {
        self.newest.min(self.before)
    }
}
