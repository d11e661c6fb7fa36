//! The last act that went on to a peer, which goes again while the front stands.

ghost use Rattle.std.specs.Prelude.{◌≡◌, ◌≤◌, [], None, Some, length, option_map};
ghost use Rattle.node_links.specs.Frames.{frame_of};
ghost use Rattle.node_links.specs.Forwarding.{is_forward, forwarded_after, again_in};

use crate::frames::{copy_into, empty};
use crate::limits::{FORWARD_AGAIN, LOOK};
use peer_codes::Frame;
use peer_codes::limits::MOST_FRAME;

/// The byte that tells a Forward among frames.
const FORWARD: u8 = 8;

/// The last Forward that went to a peer, and when it last went.
///
/// A peer that doesn't know yet for which slot the act is drops it. So it goes again while this node's front stands, by which
/// whoever keeps it sees that the act wasn't chosen.
#[derive(Drop)]
pub struct Forwarded {
    pub last: Option<Frame>,
    /// When it last went, in whole microseconds.
    pub sent: u64,
}

/// Whether this is the frame of a Forward.
fn is_forward(frame: &[u8]) -> bool
    ensures { result ≡ is_forward frame.now }
{
    frame.len() >= 6 && frame[5] == FORWARD
}

/// Makes room for a Forward, where none is kept.
fn make_room(last: &mut Option<Frame>)
    ensures { last.new ≡ Some (frame_of []) }
{
    *last = Some(empty());
}

/// This Forward went last, and stands in place of the one before it.
fn put_in(last: &mut Option<Frame>, frame: &[u8])
    requires { length frame.now ≤ MOST_FRAME }
    ensures { last.new ≡ Some (frame_of frame.now) }
{
    if last.is_none() {
        make_room(last);
    }
    if let Some(kept) = last {
        copy_into(kept, frame);
    }
}

impl Forwarded {
    /// None went.
    pub fn new() -> Forwarded
        ensures { result ≡ record { last = None; sent = 0 } }
    {
        Forwarded {
            last: None,
            sent: 0,
        }
    }

    /// A frame of these bytes goes to the peer now: it is kept if it is a Forward.
    pub fn keep(&mut self, frame: &[u8], now: u64)
        requires { length frame.now ≤ MOST_FRAME }
        ensures { self.new ≡ forwarded_after (is_forward frame.now) (frame_of frame.now) now self.old }
    {
        if !is_forward(frame) {
            return;
        }
        put_in(&mut self.last, frame);
        self.sent = now;
    }

    /// It needn't go again.
    pub fn forget(&mut self)
        ensures { self.new ≡ record self.old { last = None } }
    {
        // What is none is written over whole.
        if self.last.is_some() {
            self.last = None;
        }
    }

    /// How long it is until it goes again, where the way there and back takes so long; 0 where it does.
    pub fn wait(&self, now: u64, round_trip: u64) -> u64
        ensures { result ≡ again_in self.now now round_trip }
    {
        match &self.last {
            Some(_) => FORWARD_AGAIN
                .max(round_trip)
                .saturating_sub(now.saturating_sub(self.sent)),
            None => LOOK,
        }
    }

    /// It goes again now.
    pub fn go_again(&mut self, now: u64)
        ensures { self.new ≡ record self.old { sent = now } }
    {
        self.sent = now;
    }

    /// Its frame.
    pub fn frame(&self) -> Option<&Frame>
        ensures { option_map (λ frame. frame.now) result ≡ self.now.last }
    {
        match &self.last {
            Some(frame) => Some(frame),
            None => None,
        }
    }
}
