ghost use Rattle.paxos_wire.specs.Fits.{Fits};

use crate::asserting::{prints, same};
use crate::frames::{
    ACCEPT, ACCEPT_AWAY, ACCEPT_OF_TWO, ACCEPTED, ACCEPTED_OF_TWO, CHOSEN_AWAY, FORWARD,
    FORWARD_AWAY, LONG_ACCEPT, PREPARE, PREPARE_OF_5, PROMISE, message_of, writes,
};
use paxos_wire::{Message, MessageRoom, encode_reserved, frame_len};
use std::alloc::{AllocError, Global};
use std::process::Abort;
use std::test::Fail;

/// These frames, and what is printed of their messages.
static FRAMES: [(&[u8], &str); 12] = [
    (&PREPARE, "Prepare (1, 0) from 0"),
    (&PREPARE_OF_5, "Prepare (1, 5) from 0"),
    (&ACCEPT, "Accept (1, 0) at 0: deal of hand 0"),
    (&LONG_ACCEPT, "Accept (1, 0) at 0: deal of hand 0"),
    (&ACCEPTED, "Accepted (1, 0) at 1: act 0 of hand 0: call"),
    (&FORWARD, "Forward act 0 of hand 0: call"),
    (&PROMISE, "Promise (2, 2) from 0: 1 accepted"),
    (&FORWARD_AWAY, "Forward away at act 0 of hand 0"),
    (&ACCEPT_AWAY, "Accept (1, 0) at 1: away at act 0 of hand 0"),
    (&CHOSEN_AWAY, "Chosen at 1: away at act 0 of hand 0"),
    (
        &ACCEPT_OF_TWO,
        "Accept (1, 2) at 0 to 1: deal of hand 0, act 0 of hand 0: call",
    ),
    (
        &ACCEPTED_OF_TWO,
        "Accepted (1, 0) at 7 to 8: away at act 0 of hand 0, away at act 1 of hand 0",
    ),
];

/// Writes a message into room that is made for its frame, which has so many bytes.
fn write_in_room(
    rt: &impl Abort,
    out: &mut Vec<u8>,
    message: &Message,
    length: usize,
) -> Result<(), AllocError>
    requires { Fits message.now }
{
    same!(rt; frame_len(message), length);
    out.reserve(frame_len(message))?;
    encode_reserved(out, message);
    Ok(())
}

/// Sees that a frame is written as it is read, and what is printed of its message.
fn rewrites_and_prints(
    rt: &impl Abort,
    alloc: Global,
    frame: &[u8],
    line: &str,
) -> Result<(), AllocError> {
    let mut room = MessageRoom::new();
    let message = message_of(frame, &mut room).expect(rt, "the bytes are a frame");
    let mut out = Vec::new(alloc);
    writes(rt, &mut out, &message, frame)?;
    write_in_room(rt, &mut out, &message, frame.len())?;
    same!(rt; out.len(), 2 * frame.len());
    prints(rt, alloc, &message, line)
}

#[test]
fn frames_read_and_write_alike(rt: HostRuntime) -> Result<(), Fail> {
    for &(frame, line) in &FRAMES {
        rewrites_and_prints(&rt, rt.alloc(), frame, line)?;
    }
    Ok(())
}
