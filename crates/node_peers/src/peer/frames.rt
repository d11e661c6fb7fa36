//! Which frames go to a peer, and which go to it again.

ghost use Rattle.std.specs.Prelude.{◌≡◌};
ghost use Rattle.node_peers.specs.Growing.{Stays};
ghost use Rattle.node_peers.specs.Handing.{GoesBack, GoesWith, AreFor, peer_at};
ghost use Rattle.node_peers.specs.Sending.{IsSent};

use super::Peer;
use crate::lines::Lines;
use node_links::ends_block;
use node_links::limits::{KEPT, WAITING};
use peer_codes::limits::{LEAST_FRAME, MOST_FRAME};

impl Peer {
    /// A frame goes to the peer, or is dropped: an Ask that comes too soon behind another, and what is too old where too
    /// many wait.
    #[tactic(auto, using(crate::proofs::Sending::put_sent, crate::proofs::Handing::goes_same, crate::proofs::Handing::goes_unsent))]
    pub(crate) fn send(&mut self, bytes: &[u8], now: u64)
        ensures sent { IsSent bytes.now self.old.outbox.frames self.new.outbox.frames }
        ensures goes { GoesWith bytes.now self.old self.new }
    {
        if bytes.len() < LEAST_FRAME || bytes.len() > MOST_FRAME {
            return;
        }
        let round_trip = self.round_trip();
        if !self.asked.lets(bytes, now, round_trip) {
            return;
        }
        self.accepted.keep(bytes, now);
        self.has_told = self.has_told || ends_block(bytes);
        self.forwarded.keep(bytes, now);
        self.owed.asked(bytes);
        let most = if self.open.is_some() { WAITING } else { KEPT };
        // A frame for which there is no memory is lost, as one on the way may be.
        let _ = self.outbox.put(bytes, most);
    }

    /// Begins at a place what waits next for the peer.
    #[tactic(auto, using(crate::proofs::Handing::goes_begun))]
    pub(crate) fn begin(&mut self, lines: &mut Lines, place: usize)
        requires { AreFor (peer_at lines.old.links.items place) lines.old.sent.items self.old.outbox.frames }
        ensures stays { Stays lines.old lines.new }
        ensures goes { GoesBack self.old self.new }
    {
        lines.say(place, &mut self.outbox);
    }

    /// The last Accepted that went to the peer goes again.
    #[tactic(auto, using(crate::proofs::Handing::goes_same, crate::proofs::Handing::goes_repeated))]
    pub(super) fn repeat(&mut self, now: u64)
        ensures goes { GoesBack self.old self.new }
        ensures promised { self.new.promised ≡ self.old.promised }
    {
        self.accepted.go_again(now);
        if let Some(frame) = self.accepted.frame() {
            let _ = self.outbox.put_again(frame, WAITING);
        }
    }

    /// The last Accepted goes again, where that is due and the peer is behind this front.
    #[tactic(auto, using(crate::proofs::Handing::goes_same, crate::proofs::Handing::goes_on))]
    fn accept_again(&mut self, front: u32, now: u64)
        ensures { GoesBack self.old self.new }
    {
        let round_trip = self.round_trip();
        if self.is_behind(front) && self.accepted.is_due(now, round_trip) {
            self.repeat(now);
        }
    }

    /// The last act that went on to the peer goes again, where that is due.
    #[tactic(auto, using(crate::proofs::Handing::goes_same, crate::proofs::Handing::goes_forwarded))]
    fn forward_again(&mut self, now: u64)
        ensures { GoesBack self.old self.new }
    {
        let round_trip = self.round_trip();
        if self.forwarded.wait(now, round_trip) > 0 {
            return;
        }
        self.forwarded.go_again(now);
        if let Some(frame) = self.forwarded.frame() {
            let _ = self.outbox.put_again(frame, WAITING);
        }
    }

    /// What goes again goes, where no frame waits already: the last Accepted where the peer is behind this front, and the
    /// last act that went on to it.
    #[tactic(auto, using(crate::proofs::Handing::goes_same, crate::proofs::Handing::goes_on))]
    pub(super) fn say_again(&mut self, front: u32, now: u64)
        ensures { GoesBack self.old self.new }
    {
        if self.outbox.count() > 0 {
            return;
        }
        self.accept_again(front, now);
        self.forward_again(now);
    }

    /// Behind a block of slots the last Accepted goes again, so that a peer which is behind asks for the next one: the node
    /// that it asked before may be lost.
    #[tactic(auto, using(crate::proofs::Handing::goes_same, crate::proofs::Handing::goes_on))]
    pub(super) fn lead_on(&mut self, front: u32, now: u64)
        ensures { GoesBack self.old self.new }
    {
        self.lead_on_behind(front, now);
        self.has_told = false;
    }

    /// The same, where a block was told to its end and the peer is behind this front.
    #[tactic(auto, using(crate::proofs::Handing::goes_same, crate::proofs::Handing::goes_on))]
    fn lead_on_behind(&mut self, front: u32, now: u64)
        ensures { GoesBack self.old self.new }
    {
        if self.has_told && self.is_behind(front) {
            self.repeat(now);
        }
    }

    /// This node's front is told: once it has moved, an act that went on needn't go again.
    #[tactic(auto, using(crate::proofs::Handing::goes_same, crate::proofs::Handing::goes_forgotten))]
    pub(super) fn note_front(&mut self, front: u32)
        ensures { GoesBack self.old self.new }
    {
        let has_moved = self.front != front;
        self.front = front;
        if !has_moved {
            return;
        }
        self.forwarded.forget();
    }

    /// Whether the peer's last beat tells a front below this.
    fn is_behind(&self, front: u32) -> bool {
        match &self.beat {
            Some(beat) => beat.front < front,
            None => false,
        }
    }
}
