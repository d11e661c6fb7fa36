ghost use Rattle.std.specs.Prelude.{◌≡◌, ◌≤◌, ◌↔◌, length, IsSome, IfSome};
ghost use Rattle.peer_codes.specs.Fits.{IsFrame};

use crate::limits::{LEAST_FRAME, MOST_FRAME};
use arrayvec::ArrayVec;
use paxos_wire::push_all;

/// The bytes of one frame of a node. Whether they are one is for the node to judge; here only their count is.
#[derive(Drop)]
pub struct Frame {
    pub bytes: ArrayVec<u8, MOST_FRAME>,
}

impl Frame {
    /// A frame of these bytes; `None` where fewer than 6 or more than 4100 are there.
    pub fn new(bytes: &[u8]) -> Option<Frame>
        ensures fits { IsSome result ↔ IsFrame bytes.now }
        ensures bytes { IfSome result (λ frame. frame.bytes.items ≡ bytes.now) }
    {
        if bytes.len() < LEAST_FRAME || bytes.len() > MOST_FRAME {
            return None;
        }
        let mut kept = ArrayVec::new();
        push_all(&mut kept, bytes);
        Some(Frame { bytes: kept })
    }
}
