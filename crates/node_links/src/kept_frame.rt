ghost use Rattle.std.specs.Prelude.{◌≡◌, ◌≤◌, length, IfOk};

use peer_codes::limits::MOST_FRAME;
use std::alloc::{AllocError, Global};
use std::marker::Model;

/// A frame that waits to be written, or to be told, in memory of its own length. Contracts see the frame.
#[derive(Drop)]
pub struct KeptFrame {
    bytes: Vec<u8>,
}

impl Model for KeptFrame {
    ghost use Rattle.std.specs.Prelude.{◌≤◌, length};
    ghost use Rattle.peer_codes.specs.declared.frame.Frame.{Frame};
    ghost use Rattle.peer_codes.specs.declared.limits.TheConstants.{MOST_FRAME};
    ghost use Rattle.node_links.specs.Frames.{frame_of};

    ghost Value = { Frame };

    ghost view = { λ f. frame_of f.bytes.items };

    ghost invariant = { λ f. length f.bytes.items ≤ MOST_FRAME };
}

impl KeptFrame {
    ghost use Rattle.node_links.specs.Frames.{frame_of};

    /// A frame of these bytes, of which there may be as many as a frame has. An `Err` is of want of memory.
    pub fn new(alloc: Global, bytes: &[u8]) -> Result<KeptFrame, AllocError>
        requires { length bytes.now ≤ MOST_FRAME }
        ensures { IfOk result (λ frame. frame ≡ frame_of bytes.now) }
    {
        let bytes = Vec::from_slice(alloc, bytes)?;
        Ok(KeptFrame { bytes })
    }

    /// Its bytes.
    pub fn as_slice(&self) -> &[u8]
        ensures bytes { result.now ≡ self.now.bytes.items }
        ensures most { length result.now ≤ MOST_FRAME }
    {
        self.bytes.as_slice()
    }

    /// Its bytes, handed on with their memory.
    pub fn into_bytes(self) -> Vec<u8>
        ensures { result.items ≡ self.bytes.items }
    {
        let KeptFrame { bytes } = self;
        bytes
    }
}
