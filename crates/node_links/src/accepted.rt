//! The last Accepted that went to a peer, which is sent again while the peer is behind.

ghost use Rattle.std.specs.Prelude.{◌≡◌, ◌≤◌, [], None, Some, length, option_map};
ghost use Rattle.node_links.specs.Frames.{frame_of};
ghost use Rattle.node_links.specs.Repeating.{accepted_slot, ends_block, kept_after, slot_in, is_due, copy_of};

use crate::frames::{copy_into, empty};
use crate::limits::{BLOCK, REPEAT};
use byteorder::{BigEndian, ByteOrder};
use peer_codes::Frame;
use peer_codes::limits::MOST_FRAME;

/// The byte that tells an Accepted among frames.
const ACCEPTED: u8 = 5;

/// The byte that tells a Chosen among frames.
const CHOSEN: u8 = 6;

/// An Accepted that went to a peer.
#[derive(Drop)]
pub struct LastAccepted {
    pub frame: Frame,
    /// Its slot, of several the first.
    pub slot: u32,
}

/// The last Accepted that went to a peer, and when it last went. Where its slot is above the front of a peer that is
/// behind, the peer asks for what it lacks.
#[derive(Drop)]
pub struct Accepted {
    pub last: Option<LastAccepted>,
    /// When it last went, in whole microseconds.
    pub sent: u64,
}

/// The slot of an Accepted's frame; none of any other frame.
fn accepted_slot(frame: &[u8]) -> Option<u32>
    ensures { result ≡ accepted_slot frame.now }
{
    if frame.len() < 15 || frame[5] != ACCEPTED {
        return None;
    }
    Some(BigEndian::read_u32(&frame[11..]))
}

/// Whether a frame tells what was chosen at the last slot of a block, with which the answer of an Ask ends.
pub fn ends_block(frame: &[u8]) -> bool
    ensures { result ≡ ends_block frame.now }
{
    if frame.len() < 10 || frame[5] != CHOSEN {
        return false;
    }
    BigEndian::read_u32(&frame[6..]) % BLOCK == BLOCK - 1
}

/// Makes room for an Accepted, where none went yet.
fn make_room(last: &mut Option<LastAccepted>)
    ensures { last.new ≡ Some (record { frame = frame_of []; slot = 0 }) }
{
    *last = Some(LastAccepted {
        frame: empty(),
        slot: 0,
    });
}

/// This Accepted went last, and stands in place of the one before it.
fn put_in(last: &mut Option<LastAccepted>, frame: &[u8], slot: u32)
    requires { length frame.now ≤ MOST_FRAME }
    ensures { last.new ≡ Some (record { frame = frame_of frame.now; slot = slot }) }
{
    if last.is_none() {
        make_room(last);
    }
    if let Some(kept) = last {
        copy_into(&mut kept.frame, frame);
        kept.slot = slot;
    }
}

impl Accepted {
    /// None went.
    pub fn new() -> Accepted
        ensures { result ≡ record { last = None; sent = 0 } }
    {
        Accepted {
            last: None,
            sent: 0,
        }
    }

    /// A frame of these bytes goes to the peer now: it is kept if it is an Accepted.
    pub fn keep(&mut self, frame: &[u8], now: u64)
        requires { length frame.now ≤ MOST_FRAME }
        ensures { self.new ≡ kept_after (accepted_slot frame.now) (frame_of frame.now) now self.old }
    {
        let Some(slot) = accepted_slot(frame) else {
            return;
        };
        put_in(&mut self.last, frame, slot);
        self.sent = now;
    }

    /// The slot of the last that went.
    pub fn slot(&self) -> Option<u32>
        ensures { result ≡ slot_in self.now }
    {
        match &self.last {
            Some(last) => Some(last.slot),
            None => None,
        }
    }

    /// Whether it goes again now, where the peer is behind and the way there and back takes so long.
    pub fn is_due(&self, now: u64, round_trip: u64) -> bool
        ensures { result ≡ is_due self.now now round_trip }
    {
        self.last.is_some() && REPEAT.max(round_trip) <= now.saturating_sub(self.sent)
    }

    /// The last that went goes again now.
    pub fn go_again(&mut self, now: u64)
        ensures { self.new ≡ record self.old { sent = now } }
    {
        self.sent = now;
    }

    /// The frame of the last that went.
    pub fn frame(&self) -> Option<&Frame>
        ensures { option_map (λ frame. frame.now) result ≡ copy_of self.now.last }
    {
        match &self.last {
            Some(last) => Some(&last.frame),
            None => None,
        }
    }
}
