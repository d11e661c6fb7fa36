//! Frames by their bytes.

ghost use Rattle.std.specs.Prelude.{◌≡◌, ◌≤◌, [], length};
ghost use Rattle.node_links.specs.Frames.{frame_of};

use arrayvec::ArrayVec;
use paxos_wire::push_all;
use peer_codes::Frame;
use peer_codes::limits::MOST_FRAME;

/// A frame without bytes, as room for one.
pub(crate) fn empty() -> Frame
    ensures { result ≡ frame_of [] }
{
    Frame {
        bytes: ArrayVec::new(),
    }
}

/// Writes these bytes in place of those of a frame.
pub(crate) fn copy_into(frame: &mut Frame, bytes: &[u8])
    requires { length bytes.now ≤ MOST_FRAME }
    ensures { frame.new ≡ frame_of bytes.now }
{
    frame.bytes.clear();
    push_all(&mut frame.bytes, bytes);
}
