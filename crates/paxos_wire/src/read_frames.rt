//! The message of a whole frame, or the frame's first fault.

ghost use Rattle.std.specs.Prelude.{◌≡◌, ◌≤◌, length, Some, slice_index, IfOk, IfErr, OnOk, None, Ok};
ghost use Rattle.paxos_wire.specs.declared.message.Message.{Message};
ghost use Rattle.paxos_wire.specs.Fits.{IsMessage};
ghost use Rattle.paxos_wire.specs.Spelling.{IsText};
ghost use Rattle.paxos_wire.specs.Kinds.{kind_byte};
ghost use Rattle.paxos_wire.specs.Versions.{version_of};
ghost use Rattle.paxos_wire.specs.Faults.{header_fault, fault_of, reading};

use crate::fault::FrameFault;
use crate::kind::Kind;
use crate::limits::{LEAST_LENGTH, LENGTH_BYTES, MOST_LENGTH};
use crate::message::Message;
use crate::message_room::MessageRoom;
use crate::read_messages::message_of_body;
use crate::version::Version;
use byteorder::{BigEndian, ByteOrder};

/// The version of a frame and the kind of its message, or the fault that the frame's length, its version or its kind
/// shows.
#[tactic(auto, unfolding(crate::specs::Faults::header_fault))]
fn header_of_frame(bytes: &[u8]) -> Result<(Version, Kind), FrameFault>
    ensures header { IfOk result (λ x. (header_fault bytes.now ≡ None) × (version_of (slice_index bytes.now 4) ≡ x.0) × (slice_index bytes.now 5 ≡ kind_byte x.1)) }
    ensures fault { IfErr result (λ fault. header_fault bytes.now ≡ Some fault) }
    ensures whole { OnOk result (6 ≤ length bytes.now) }
{
    if bytes.len() < LENGTH_BYTES {
        return Err(FrameFault::TooShort);
    }
    let length = BigEndian::read_u32(bytes) as usize;
    if length < LEAST_LENGTH {
        return Err(FrameFault::TooShort);
    }
    if length > MOST_LENGTH {
        return Err(FrameFault::TooLong);
    }
    if bytes.len() != LENGTH_BYTES + length {
        return Err(FrameFault::BadBody);
    }
    let Some(version) = Version::of_byte(bytes[4]) else {
        return Err(FrameFault::BadVersion);
    };
    match Kind::of_byte(bytes[5]) {
        Some(kind) => Ok((version, kind)),
        None => Err(FrameFault::BadKind),
    }
}

/// The message of a frame, all of the bytes, whose lists stand in the room, or the frame's first fault.
#[tactic(auto, unfolding(crate::specs::Faults::reading))]
pub(crate) fn message_of_frame<'a>(
    bytes: &[u8],
    room: &'a mut MessageRoom,
) -> Result<Message<'a>, FrameFault>
    ensures { result ≡ reading bytes.now }
{
    let (version, kind) = header_of_frame(bytes)?;
    match message_of_body(version, kind, &bytes[6..], room) {
        Some(message) => Ok(message),
        None => Err(FrameFault::BadBody),
    }
}

/// The message of one whole frame of either version, the frame's length in front. Its lists stand in the room, in place of
/// what was read into it before.
///
/// Else the first of: 50 `TooShort` (fewer than four bytes, or a length below 2), 51 `TooLong` (a length above
/// 4096), 54 `BadBody` (another count of bytes than the length says), 52 `BadVersion` (neither 1 nor 2), 53 `BadKind`, 54 `BadBody`
/// (a value out of its range, a byte left over or missing).
pub fn decode<'a>(bytes: &[u8], room: &'a mut MessageRoom) -> Result<Message<'a>, FrameFault>
    // It is the public form of `message_of_frame`, whose one clause is `exact`. What is read has this text.
    ensures found { IfOk result (λ m. IsMessage m × IsText m bytes.now) }
    // What has this text is read.
    ensures only { (m : Message) → IsMessage m → IsText m bytes.now → result ≡ Ok m }
    // Else it is the first fault.
    ensures fault { IfErr result (λ f. f ≡ fault_of bytes.now) }
    ensures exact { result ≡ reading bytes.now }
{
    message_of_frame(bytes, room)
}
