ghost use Rattle.std.specs.Prelude.{◌≡◌, ◌<◌, ◌≤◌, ◌+◌, ◌++◌, ◌↔◌, ℕ, [], List, length, drop, Some, Ok, IsNone, IfSome, IfOk, IfErr, OnOk, OnErr};
ghost use Rattle.paxos_wire.specs.declared.message.Message.{Message};
ghost use Rattle.paxos_wire.specs.Fits.{IsMessage};
ghost use Rattle.paxos_wire.specs.Faults.{reading};
ghost use Rattle.paxos_wire.specs.Stream.{needed, IsPartial, IsInFront, IsFaulty, Takes};

use crate::fault::FrameFault;
use crate::limits::{LEAST_LENGTH, LENGTH_BYTES, MOST_LENGTH};
use crate::message::Message;
use crate::message_room::MessageRoom;
use crate::read_frames::message_of_frame;
use byte_queue::ByteQueue;
use byteorder::{BigEndian, ByteOrder};
use std::alloc::{AllocError, Global};
use std::marker::Model;

/// Takes a stream of frames of either version in any pieces, and gives its messages in order, and then its first fault.
///
/// Contracts see the bytes that it took and that don't belong to a message given yet, and how many more bytes may
/// come without taking memory.
#[derive(Drop)]
pub struct Feed {
    queue: ByteQueue,
    fault: Option<FrameFault>,
}

impl Model for Feed {
    ghost use Rattle.byte_queue.specs.Queued.{Queued};

    ghost Value = { Queued };

    ghost use Rattle.paxos_wire.specs.FeedInside.{IsKept};

    ghost view = { λ f. f.queue };

    ghost invariant = { IsKept };
}

/// Where the frame in front ends, or the length that no frame may have; `None` while it isn't whole.
#[tactic(auto, unfolding(crate::specs::Stream::needed))]
fn front_end(bytes: &[u8]) -> Option<usize>
    ensures partial { IsNone result ↔ IsPartial bytes.now }
    ensures end { IfSome result (λ end. end ≡ needed bytes.now) }
    ensures there { IfSome result (λ end. end ≤ length bytes.now) }
{
    if bytes.len() < LENGTH_BYTES {
        return None;
    }
    let length = BigEndian::read_u32(bytes) as usize;
    let end = if LEAST_LENGTH <= length && length <= MOST_LENGTH {
        LENGTH_BYTES + length
    } else {
        LENGTH_BYTES
    };
    if bytes.len() < end { None } else { Some(end) }
}

/// What stands in front, and how many bytes of it there are; `None` while it isn't whole. A message's lists stand in the
/// room.
fn frame_in_front<'a>(
    bytes: &[u8],
    room: &'a mut MessageRoom,
) -> Option<(Result<Message<'a>, FrameFault>, usize)>
    ensures partial { IsNone result ↔ IsPartial bytes.now }
    ensures end { IfSome result (λ x. x.1 ≤ length bytes.now) }
    ensures found { IfSome result (λ x. IfOk x.0 (λ m. IsMessage m × IsInFront m bytes.now (drop x.1 bytes.now))) }
    ensures only { (m : Message) (rest : List ℕ) → IsMessage m → IsInFront m bytes.now rest → IfSome result (λ x. (x.0 ≡ Ok m) × (drop x.1 bytes.now ≡ rest)) }
    ensures fault { IfSome result (λ x. IfErr x.0 (λ f. IsFaulty bytes.now f)) }
{
    let end = front_end(bytes)?;
    let read = message_of_frame(&bytes[..end], room);
    Some((read, end))
}

impl Feed {
    /// A feed that was given nothing. Takes no memory.
    pub fn new(alloc: Global) -> Feed
        ensures { result.waiting ≡ [] }
    {
        Feed {
            queue: ByteQueue::new(alloc),
            fault: None,
        }
    }

    /// Takes the next piece of the stream, of any length; a stream at fault takes no more. An `Err` changes nothing;
    /// it comes only where `reserve` would have to take memory.
    pub fn feed(&mut self, piece: &[u8]) -> Result<(), AllocError>
        ensures ok { OnOk result (Takes self.old.waiting piece.now self.new.waiting) }
        ensures room { self.old.room ≤ self.new.room + length piece.now }
        ensures err { OnErr result (self.new ≡ self.old) }
        // It fails only where the room is missing.
        ensures full { OnErr result (self.old.room < length piece.now) }
    {
        if self.fault.is_some() {
            return Ok(());
        }
        self.queue.push(piece)
    }

    /// Makes room for so many bytes more, so that `feed_reserved` takes no memory for them. An `Err` changes nothing.
    pub fn reserve(&mut self, more: usize) -> Result<(), AllocError>
        ensures ok { OnOk result (more ≤ self.new.room) }
        ensures waiting { self.new.waiting ≡ self.old.waiting }
        ensures room { self.old.room ≤ self.new.room }
        ensures err { OnErr result (self.new ≡ self.old) }
        // It fails only where the room is missing.
        ensures full { OnErr result (self.old.room < more) }
    {
        self.queue.reserve(more)
    }

    /// Takes the next piece of the stream into room that was reserved for it; a stream at fault takes no more.
    pub fn feed_reserved(&mut self, piece: &[u8])
        requires { length piece.now ≤ self.old.room }
        ensures takes { Takes self.old.waiting piece.now self.new.waiting }
        ensures room { self.old.room ≤ self.new.room + length piece.now }
    {
        if self.fault.is_some() {
            return;
        }
        self.queue.push_reserved(piece);
    }

    /// The next message, whose lists stand in the room, or the fault in front (50 to 54), told again from then on.
    ///
    /// `None` where what is there is neither a whole frame nor at fault. A length below 2 or above 4096 is a
    /// fault as soon as its four bytes are there, the others once the frame is whole.
    pub fn next<'a>(&mut self, room: &'a mut MessageRoom) -> Option<Result<Message<'a>, FrameFault>>
        // It waits just where the frame isn't whole.
        ensures partial { IsNone result ↔ IsPartial self.old.waiting }
        ensures waits { IsNone result → self.new ≡ self.old }
        // What it gives stood in front, and the bytes behind it stay.
        ensures found { IfSome result (λ read. IfOk read (λ m. IsMessage m × IsInFront m self.old.waiting self.new.waiting)) }
        // The message of which a text stands in front is given.
        ensures only { (m : Message) (rest : List ℕ) → IsMessage m → IsInFront m self.old.waiting rest → (result ≡ Some (Ok m)) × (self.new.waiting ≡ rest) }
        // A fault is the first of what stands in front, and everything stays.
        ensures fault { IfSome result (λ read. IfErr read (λ f. IsFaulty self.old.waiting f × (self.new ≡ self.old))) }
        ensures room { self.old.room ≤ self.new.room }
    {
        if let Some(fault) = self.fault {
            return Some(Err(fault));
        }
        let Some((read, end)) = frame_in_front(self.queue.waiting(), room) else {
            return None;
        };
        match read {
            Ok(message) => {
                self.queue.skip(end);
                Some(Ok(message))
            }
            Err(fault) => {
                self.fault = Some(fault);
                Some(Err(fault))
            }
        }
    }
}
