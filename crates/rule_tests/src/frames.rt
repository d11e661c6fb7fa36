//! Frames of messages, two as they were in the version before, too, and how a frame is read and written.

ghost use Rattle.std.specs.Prelude.{IfSome};
ghost use Rattle.paxos_wire.specs.Fits.{Fits};

use crate::asserting::holds;
use paxos_wire::{Message, MessageRoom, decode, encode};
use std::alloc::AllocError;
use std::process::Abort;

/// Prepare of (1, 0) at slot 0.
pub(crate) const PREPARE: [u8; 15] = [0, 0, 0, 11, 2, 1, 0, 0, 0, 1, 0, 0, 0, 0, 0];

/// Accept of a deal in (1, 0) at slot 0.
pub(crate) const ACCEPT: [u8; 31] = [
    0, 0, 0, 0x1b, 2, 4, 0, 0, 0, 1, 0, 0, 0, 0, 0, 1, 1, 0, 0, 0, 0, 9, 0x21, 0x33, 0x1a, 0x20, 0,
    0x18, 6, 0x1c, 0x2e,
];

/// Accepted of a call in (1, 0) at slot 1.
pub(crate) const ACCEPTED: [u8; 28] = [
    0, 0, 0, 0x18, 2, 5, 0, 0, 0, 1, 0, 0, 0, 0, 1, 1, 2, 0, 0, 0, 0, 0, 0, 1, 0, 0, 0, 0,
];

/// Forward of a call.
pub(crate) const FORWARD: [u8; 18] = [0, 0, 0, 14, 2, 8, 2, 0, 0, 0, 0, 0, 0, 1, 0, 0, 0, 0];

/// A Promise of (2, 2) from slot 0 that tells of that deal.
pub(crate) const PROMISE: [u8; 40] = [
    0, 0, 0, 0x24, 2, 2, 0, 0, 0, 2, 2, 0, 0, 0, 0, 1, 0, 0, 0, 0, 0, 0, 0, 1, 0, 1, 0, 0, 0, 0, 9,
    0x21, 0x33, 0x1a, 0x20, 0, 0x18, 6, 0x1c, 0x2e,
];

/// Forward of who is away at the first act of hand 0.
pub(crate) const FORWARD_AWAY: [u8; 13] = [0, 0, 0, 9, 2, 8, 3, 0, 0, 0, 0, 0, 0];

/// Accept of the same in (1, 0) at slot 1.
pub(crate) const ACCEPT_AWAY: [u8; 23] = [
    0, 0, 0, 0x13, 2, 4, 0, 0, 0, 1, 0, 0, 0, 0, 1, 1, 3, 0, 0, 0, 0, 0, 0,
];

/// That it is chosen at slot 1.
pub(crate) const CHOSEN_AWAY: [u8; 17] = [0, 0, 0, 0x0d, 2, 6, 0, 0, 0, 1, 3, 0, 0, 0, 0, 0, 0];

/// Accept of a deal for ten players in (1, 0) at slot 0: the longest frame of one command.
pub(crate) const LONG_ACCEPT: [u8; 47] = [
    0, 0, 0, 0x2b, 2, 4, 0, 0, 0, 1, 0, 0, 0, 0, 0, 1, 1, 0, 0, 0, 0, 25, 0, 1, 2, 3, 4, 5, 6, 7,
    8, 9, 10, 11, 12, 13, 14, 15, 16, 17, 18, 19, 20, 21, 22, 23, 24,
];

/// Accept in (1, 2) of a deal at slot 0 and a call at slot 1.
pub(crate) const ACCEPT_OF_TWO: [u8; 43] = [
    0, 0, 0, 0x27, 2, 4, 0, 0, 0, 1, 2, 0, 0, 0, 0, 2, 1, 0, 0, 0, 0, 9, 0x21, 0x33, 0x1a, 0x20, 0,
    0x18, 6, 0x1c, 0x2e, 2, 0, 0, 0, 0, 0, 0, 1, 0, 0, 0, 0,
];

/// Accepted in (1, 0) of who is away at the first two acts of hand 0, at slots 7 and 8.
pub(crate) const ACCEPTED_OF_TWO: [u8; 30] = [
    0, 0, 0, 0x1a, 2, 5, 0, 0, 0, 1, 0, 0, 0, 0, 7, 2, 3, 0, 0, 0, 0, 0, 0, 3, 0, 0, 0, 0, 0, 1,
];

/// Prepare of (1, 5) at slot 0.
pub(crate) const PREPARE_OF_5: [u8; 15] = [0, 0, 0, 11, 2, 1, 0, 0, 0, 1, 5, 0, 0, 0, 0];

/// That Prepare in the version before.
pub(crate) const OLD_PREPARE: [u8; 15] = [0, 0, 0, 11, 1, 1, 0, 0, 0, 1, 0, 0, 0, 0, 0];

/// That Accept of a deal in the version before.
pub(crate) const OLD_ACCEPT: [u8; 30] = [
    0, 0, 0, 0x1a, 1, 4, 0, 0, 0, 1, 0, 0, 0, 0, 0, 1, 0, 0, 0, 0, 9, 0x21, 0x33, 0x1a, 0x20, 0,
    0x18, 6, 0x1c, 0x2e,
];

// Calls with long contracts stand in one function each: a contract is read anew wherever its call stands.

/// The message of a frame.
pub(crate) fn message_of<'a>(frame: &[u8], room: &'a mut MessageRoom) -> Option<Message<'a>>
    ensures { IfSome result (λ message. Fits message) }
{
    match decode(frame, room) {
        Ok(message) => Some(message),
        Err(_) => None,
    }
}

/// Sees that a message is written as a frame.
pub(crate) fn writes(
    rt: &impl Abort,
    out: &mut Vec<u8>,
    message: &Message,
    frame: &[u8],
) -> Result<(), AllocError>
    requires { Fits message.now }
{
    encode(out, message)?;
    holds!(rt; out.as_slice() == frame);
    Ok(())
}
