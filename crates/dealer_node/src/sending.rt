ghost use Rattle.std.specs.Prelude.{◌≡◌, ◌+◌, ◌*◌, ◌++◌, length, map};
ghost use Rattle.paxos_wire.specs.Fits.{Fits, IsMessage, most_bytes};
ghost use Rattle.paxos_wire.specs.Spelling.{frame};
ghost use Rattle.dealer_node.specs.Rooms.{HasSpace, Grows};
ghost use Rattle.node_rules.specs.Sending.{one, to_first};
ghost use Rattle.dealer_node.specs.Turned.{framed};
ghost use Rattle.dealer_node.specs.Fitting.{AreMessages};

use crate::texts::{Run, Texts};
use paxos_wire::{Message, encode_reserved, frame_len};

/// Sends a node the frame of a message, for which there is room.
pub(crate) fn send(frames: &mut Texts<u8>, to: u8, message: &Message)
    requires fits { Fits message.now }
    requires space { HasSpace frames.old 1 (length (frame message.now)) }
    ensures texts { frames.new.texts ≡ frames.old.texts ++ map framed (one to message.now) }
    ensures grows { Grows frames.old frames.new 1 (length (frame message.now)) }
    ensures message { IsMessage message.now }
{
    let start = frames.bytes.len();
    encode_reserved(&mut frames.bytes, message);
    let len = frames.bytes.len() - start;
    frames.runs.push_reserved(Run { mark: to, len });
}

/// Sends the frame of a message to each node but this one, in order of their numbers.
pub(crate) fn send_to_others(frames: &mut Texts<u8>, nodes: u8, number: u8, message: &Message)
    requires fits { Fits message.now }
    requires space { HasSpace frames.old nodes (most_bytes message.now * nodes) }
    ensures texts { frames.new.texts ≡ frames.old.texts ++ map framed (to_first nodes number message.now) }
    ensures fits { AreMessages (to_first nodes number message.now) }
    ensures grows { Grows frames.old frames.new nodes (most_bytes message.now * nodes) }
{
    let _len = frame_len(message);
    for to in 0..nodes {
        if to != number {
            send(frames, to, message);
        }
    }
}
