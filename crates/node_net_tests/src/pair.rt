//! Two processes, of nodes 0 and 1, whose wires are joined in memory.

use crate::samples::{TOLD, own};
use node_links::Own;
use node_peers::{Notice, Peers};
use node_wires::limits::TAKEN_AT_ONCE;
use node_wires::{Line, MemoryWire};
use peer_codes::Life;
use std::alloc::{AllocError, Global};

/// A silence of so many microseconds makes a peer absent.
pub(crate) const SILENCE: u64 = 1_000_000;

/// A process, and what it was told.
pub(crate) struct Side {
    pub(crate) wire: MemoryWire,
    pub(crate) peers: Peers,
    pub(crate) seen: Seen,
}

/// By hand, so that letting one go is one call for whoever owns it (docs/ARCHITECTURE.md, Habits).
impl Drop for Side {
    fn drop(self) {
        let Side {
            wire: _,
            peers: _,
            seen: _,
        } = self;
    }
}

/// How often each was told.
#[derive(Clone, Copy)]
pub(crate) struct Seen {
    pub(crate) joined: u8,
    /// With a life that is to be kept.
    pub(crate) lives: u8,
    pub(crate) gone: u8,
    pub(crate) frames: u8,
    /// The number of the last fault, or 0.
    pub(crate) fault: u8,
    /// How many faults were told of peers.
    pub(crate) refused: u8,
    /// How many callers were told to be refused.
    pub(crate) strangers: u32,
    /// How often it was told that dials of a peer come to nothing.
    pub(crate) unreached: u32,
    /// In how many of these its address refused the last.
    pub(crate) refuses: u32,
    /// How often settings of a peer were told.
    pub(crate) settings: u8,
    /// The sum of all frames' last bytes.
    pub(crate) sum: u64,
}

pub(crate) const NOTHING: Seen = Seen {
    joined: 0,
    lives: 0,
    gone: 0,
    frames: 0,
    fault: 0,
    refused: 0,
    strangers: 0,
    unreached: 0,
    refuses: 0,
    settings: 0,
    sum: 0,
};

/// What was told so far, and that a peer joined.
fn and_joined(seen: Seen, has_life: bool) -> Seen {
    Seen {
        joined: seen.joined.saturating_add(1),
        lives: seen.lives.saturating_add(has_life as u8),
        ..seen
    }
}

/// What was told so far, and that a peer is gone.
fn and_gone(seen: Seen) -> Seen {
    Seen {
        gone: seen.gone.saturating_add(1),
        ..seen
    }
}

/// What was told so far, and the fault of a peer.
fn and_refused(seen: Seen, fault: u8) -> Seen {
    Seen {
        fault,
        refused: seen.refused.saturating_add(1),
        ..seen
    }
}

/// What was told so far, and callers who were refused.
fn and_strangers(seen: Seen, count: u32, fault: u8) -> Seen {
    Seen {
        fault,
        strangers: seen.strangers.saturating_add(count),
        ..seen
    }
}

/// What was told so far, and that dials come to nothing.
fn and_unreached(seen: Seen, refuses: bool) -> Seen {
    Seen {
        unreached: seen.unreached.saturating_add(1),
        refuses: seen.refuses.saturating_add(refuses as u32),
        ..seen
    }
}

/// What was told so far, and the settings of a peer.
fn and_settings(seen: Seen) -> Seen {
    Seen {
        settings: seen.settings.saturating_add(1),
        ..seen
    }
}

/// What was told so far, and a frame.
fn and_frame(seen: Seen, bytes: &[u8]) -> Seen {
    let last = bytes.last().copied().unwrap_or(0);
    Seen {
        frames: seen.frames.saturating_add(1),
        sum: seen.sum.saturating_add(last as u64),
        ..seen
    }
}

/// What was told so far, and this.
fn and_notice(seen: Seen, notice: &Notice) -> Seen {
    match notice {
        Notice::Joined { peer: _, life } => and_joined(seen, life.is_some()),
        Notice::Gone { peer: _ } => and_gone(seen),
        Notice::Refused {
            peer: _,
            fault,
            source: _,
        } => and_refused(seen, fault.code()),
        Notice::Strangers {
            peer: _,
            count,
            fault,
        } => and_strangers(seen, *count, fault.code()),
        Notice::Settings {
            peer: _,
            settings: _,
        } => and_settings(seen),
        Notice::Unreached { peer: _, refuses } => and_unreached(seen, *refuses),
        Notice::Frame { from: _, frame } => and_frame(seen, frame.as_slice()),
    }
}

impl Side {
    /// The process of a node, in the match of this digest; a call of its wire of this number fails.
    pub(crate) fn new(
        alloc: Global,
        number: u8,
        digest: u8,
        kept: &[Option<Life>],
        call: u64,
    ) -> Result<Side, AllocError> {
        Side::of(alloc, own(number, digest, None), kept, call)
    }

    /// The process of this node.
    pub(crate) fn of(
        alloc: Global,
        own: Own,
        kept: &[Option<Life>],
        call: u64,
    ) -> Result<Side, AllocError> {
        Ok(Side {
            wire: MemoryWire::new(alloc, call)?,
            peers: Peers::new(alloc, own, kept, SILENCE)?,
            seen: NOTHING,
        })
    }

    /// One turn at this moment.
    pub(crate) fn turn(&mut self, now: u64) {
        self.wire.set_now(now);
        self.hear(now);
        for _ in 0..64 {
            if !self.is_told(now) {
                break;
            }
        }
        self.say(now);
    }

    /// Takes what came, and then those who dialled, as many as in a turn at most.
    pub(crate) fn hear(&mut self, now: u64) {
        self.peers.hear(&mut self.wire, now);
        for _ in 0..TAKEN_AT_ONCE {
            if !self.peers.take_caller(&mut self.wire, now) {
                break;
            }
        }
    }

    /// Whether something is told, which is then counted: what came, and then what was set aside.
    fn is_told(&mut self, now: u64) -> bool {
        let notice = match self.peers.next() {
            Some(notice) => Some(notice),
            None => self.peers.next_aside(now),
        };
        match notice {
            Some(notice) => {
                self.seen = and_notice(self.seen, &notice);
                true
            }
            None => false,
        }
    }

    /// Says how the node is, and what waits.
    fn say(&mut self, now: u64) {
        self.peers.tell(TOLD, now);
        self.peers.flush(&mut self.wire, now);
    }

    /// The last thing that was told is forgotten.
    pub(crate) fn forget(&mut self) {
        self.seen = NOTHING;
    }
}

/// Node 0 of three, which nobody dialled yet.
pub(crate) fn node_0(alloc: Global) -> Result<Side, AllocError> {
    Side::new(alloc, 0, 9, &[], 0)
}

/// Somebody dials at this moment and says these bytes, at the place that is free.
pub(crate) fn say(side: &mut Side, place: u8, bytes: &[u8], now: u64) -> Result<(), AllocError> {
    side.wire.call();
    side.turn(now);
    side.wire.come(Line::Caller(place), bytes)?;
    side.turn(now);
    Ok(())
}

/// How many bytes were said to who stands at a place.
pub(crate) fn said(side: &Side, place: u8) -> u64 {
    side.wire.written(Line::Caller(place)).len() as u64
}

/// What was written over the line of one comes over that of the other.
fn carry(
    alloc: Global,
    from: &mut MemoryWire,
    line: Line,
    to: &mut MemoryWire,
    other: Line,
) -> Result<(), AllocError> {
    let bytes = Vec::from_slice(alloc, from.written(line))?;
    from.take_written(line);
    to.come(other, bytes.as_slice())
}

/// The place of who called node 0.
const CALLER: Line = Line::Caller(0);

/// The line of node 1 to node 0.
const PEER: Line = Line::Peer(0);

/// Carries what both wrote over a line of node 1 to node 0, which is that of a caller there, and the ends of that connection.
pub(crate) fn exchange_over(
    alloc: Global,
    low: &mut Side,
    high: &mut Side,
    caller: Line,
    peer: Line,
) -> Result<(), AllocError> {
    carry(alloc, &mut high.wire, peer, &mut low.wire, caller)?;
    carry(alloc, &mut low.wire, caller, &mut high.wire, peer)?;
    if !high.wire.is_open(peer) {
        low.wire.end(caller);
    }
    Ok(())
}

/// The same of their first connection.
pub(crate) fn exchange(alloc: Global, low: &mut Side, high: &mut Side) -> Result<(), AllocError> {
    exchange_over(alloc, low, high, CALLER, PEER)
}

/// Both take turns, so many of them, each 1 ms behind the one before. Node 1's first dial is taken in.
pub(crate) fn take_turns(
    alloc: Global,
    low: &mut Side,
    high: &mut Side,
    from: u64,
    turns: u64,
) -> Result<(), AllocError> {
    for turn in 0..turns {
        let now = from.saturating_add(turn.saturating_mul(1_000));
        let was_open = high.wire.is_open(PEER);
        high.turn(now);
        if !was_open && high.wire.is_open(PEER) {
            low.wire.call();
        }
        low.turn(now);
        exchange(alloc, low, high)?;
    }
    Ok(())
}
