//! Since when a node has a quorum, and when it last ordered that a seat is played for.

ghost use Rattle.std.specs.Prelude.{◌≡◌, ◌-◌, ◌&&◌, max, nat_le, Some};
ghost use Rattle.node_service.specs.declared.limits.TheConstants.{REPLAYED as REPLAYED_FOR};

use crate::limits::REPLAYED;

/// Since when a node has a quorum, and when it last ordered that a seat is played for. Moments are whole microseconds since one
/// that stays the same as long as the process lives.
#[derive(Clone, Copy)]
pub(crate) struct TurnTimer {
    /// The node has a quorum, and since when; where it hadn't one yet, when the process began.
    pub(crate) is_quorate: bool,
    quorate_since: u64,
    /// When it was last ordered that a seat is played for.
    ordered: Option<u64>,
}

impl TurnTimer {
    ghost use Rattle.node_service.specs.Knowing.{ordered_since};
    ghost use Rattle.node_service.specs.Timing.{timer_of, stood_at};

    /// The process begins.
    pub(crate) fn new(now: u64) -> TurnTimer
        ensures { result ≡ timer_of now }
    {
        TurnTimer {
            is_quorate: false,
            quorate_since: now,
            ordered: None,
        }
    }

    /// The node has a quorum at this moment, or hasn't.
    pub(crate) fn stand(&mut self, is_quorate: bool, now: u64)
        ensures { self.new ≡ stood_at self.old is_quorate now }
    {
        if is_quorate && !self.is_quorate {
            self.quorate_since = now;
        }
        self.is_quorate = is_quorate;
    }

    /// At this moment the node has had a quorum for so long that its match isn't replayed any more.
    pub(crate) fn is_steady(&self, now: u64) -> bool
        ensures { result ≡ (self.now.is_quorate && nat_le REPLAYED_FOR (now - self.now.quorate_since)) }
    {
        self.is_quorate && now.saturating_sub(self.quorate_since) >= REPLAYED
    }

    /// It is ordered that a seat is played for.
    pub(crate) fn order(&mut self, now: u64)
        ensures { self.new ≡ record self.old { ordered = Some now } }
    {
        self.ordered = Some(now);
    }

    /// Since when nothing has gone on, where the front last moved at that moment: the later one of it and of the moment at
    /// which the node became quorate.
    pub(crate) fn stood(&self, moved: u64) -> u64
        ensures { result ≡ max moved self.now.quorate_since }
    {
        moved.max(self.quorate_since)
    }

    /// When it was last ordered since the front moved.
    pub(crate) fn ordered_since(&self, moved: u64) -> Option<u64>
        ensures { result ≡ ordered_since self.now.ordered moved }
    {
        let moment = self.ordered?;
        if moved <= moment { Some(moment) } else { None }
    }
}
