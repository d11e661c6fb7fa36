//! Which Asks go to a peer.

ghost use Rattle.std.specs.Prelude.{◌≡◌, None, not};
ghost use Rattle.node_links.specs.Asking.{asked_slot, is_repeated, is_again, asked_after};

use crate::limits::{AGAIN, BLOCK};
use byteorder::{BigEndian, ByteOrder};

/// The byte that tells an Ask among frames.
const ASK: u8 = 7;

/// The last Ask that went to a peer.
#[derive(Clone, Copy, Debug, PartialEq, Eq)]
pub struct LastAsk {
    /// The block of slots that it asked of: its slots divided by 64.
    pub block: u32,
    /// When it went, in whole microseconds.
    pub at: u64,
}

/// What Asks went to a peer.
///
/// Each frame that tells a node of a slot above its front makes it ask, and the answer reaches to the end of the block of
/// 64 slots: while one is awaited a further Ask of that block is dropped.
#[derive(Clone, Copy, Debug, PartialEq, Eq)]
pub struct Asked {
    pub last: Option<LastAsk>,
}

/// The slot that an Ask's frame asks of; none of any other frame.
fn asked_slot(frame: &[u8]) -> Option<u32>
    ensures { result ≡ asked_slot frame.now }
{
    if frame.len() < 10 || frame[5] != ASK {
        return None;
    }
    Some(BigEndian::read_u32(&frame[6..]))
}

/// Whether this block was asked of less than so long ago.
fn is_repeated(last: Option<LastAsk>, block: u32, now: u64, pause: u64) -> bool
    ensures { result ≡ is_repeated last block now pause }
{
    match last {
        Some(ask) => ask.block == block && now.saturating_sub(ask.at) < pause,
        None => false,
    }
}

impl Asked {
    /// None went.
    pub fn new() -> Asked
        ensures { result.last ≡ None }
    {
        Asked { last: None }
    }

    /// Whether a frame goes to the peer now, where the way there and back takes so long: each but an Ask of the block that
    /// was asked of last, less than that long ago, and less than 20 ms.
    pub fn lets(&mut self, frame: &[u8], now: u64, round_trip: u64) -> bool
        ensures goes { result ≡ not (is_again self.old.last (asked_slot frame.now) now round_trip) }
        ensures asked { self.new.last ≡ asked_after self.old.last (asked_slot frame.now) now round_trip }
    {
        let Some(slot) = asked_slot(frame) else {
            return true;
        };
        let block = slot / BLOCK;
        if is_repeated(self.last, block, now, AGAIN.max(round_trip)) {
            return false;
        }
        self.last = Some(LastAsk { block, at: now });
        true
    }
}
