//! Who is turned away everywhere holds back.

ghost use Rattle.std.specs.Prelude.{◌≡◌, ◌<◌, None, IfSome, IsNone};

use crate::limits::{FIRST_HOLD, MOST_HOLD, SHORT_COUNT};

/// Which nodes ended connections soon, one behind the other, and until when none is dialled.
#[derive(Clone, Copy)]
pub(crate) struct Holding {
    /// The nodes, a bit each.
    nodes: u8,
    /// How long the next hold is.
    pause: u64,
    until: u64,
}

/// How many bits are set.
fn count(bits: u8) -> u32 {
    bits.count_ones()
}

impl Holding {
    ghost use Rattle.relay_runs.specs.Holds.{Holds, HoldsOn};

    /// Nobody turned it away.
    pub(crate) fn new() -> Holding {
        Holding {
            nodes: 0,
            pause: FIRST_HOLD,
            until: 0,
        }
    }

    /// A node of so many is there, and a connection to it had ended soon, at this moment. Once each of three did so, or all that
    /// there are, the hold begins: it answers for how many microseconds. A connection that ended before the last hold was over
    /// counts for nothing.
    pub(crate) fn note(&mut self, node: u8, all: u8, ended: u64, now: u64) -> Option<u64>
        ensures early { ended < self.old.until → (self.new ≡ self.old) × (result ≡ None) }
        ensures begins { IfSome result (λ pause. Holds self.old self.new pause now) }
        ensures none { IsNone result → HoldsOn self.old self.new }
    {
        if ended < self.until {
            return None;
        }
        self.nodes |= if node < 8 { 1u8 << node } else { 0 };
        if count(self.nodes) < SHORT_COUNT.min(all as u32) {
            return None;
        }
        let pause = self.pause;
        self.nodes = 0;
        self.until = now.saturating_add(pause);
        self.pause = pause.saturating_mul(2).min(MOST_HOLD);
        Some(pause)
    }

    /// A connection lasts: the next hold is the first one again.
    pub(crate) fn settle(&mut self) {
        self.nodes = 0;
        self.pause = FIRST_HOLD;
    }

    /// Until when no node is dialled.
    pub(crate) fn until(&self) -> u64
        ensures { result ≡ self.now.until }
    {
        self.until
    }
}
