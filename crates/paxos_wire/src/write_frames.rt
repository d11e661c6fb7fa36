//! The one frame of each message, written behind other bytes.

ghost use Rattle.std.specs.Prelude.{◌≡◌, ◌+◌, ◌≤◌, ◌++◌, length, OnOk, IsOk, OnErr};
ghost use Rattle.std.specs.Vec.{vec_len, vec_capacity};
ghost use Rattle.paxos_wire.specs.Fits.{IsMessage, Fits, IsSingle, most_bytes};
ghost use Rattle.paxos_wire.specs.Spelling.{frame};

use crate::count_bytes::{frame_len, payload_len};
use crate::kind::Kind;
use crate::limits::{MOST_FRAME, MOST_SINGLE_FRAME, VERSION};
use crate::message::Message;
use crate::write_messages::put_body;
use crate::write_numbers::put_number;
use std::alloc::AllocError;

/// Appends the one frame of a message. An `Err`, for want of memory, changes no byte.
pub fn encode(out: &mut Vec<u8>, message: &Message) -> Result<(), AllocError>
    requires { Fits message.now }
    ensures frame { OnOk result (out.new.items ≡ out.old.items ++ frame message.now) }
    ensures err { OnErr result (out.new.items ≡ out.old.items) }
    // It fails only where the room is missing.
    ensures room { vec_len out.old + length (frame message.now) ≤ vec_capacity out.old → IsOk result }
    // The cards of its deals are dealt too, so that the frame decodes to the message.
    ensures message { OnOk result (IsMessage message.now) }
{
    out.reserve(frame_len(message))?;
    encode_reserved(out, message);
    Ok(())
}

/// Appends the one frame of a message, where the room for it (`frame_len`) is there already.
#[tactic(auto, unfolding(crate::specs::Spelling::frame_of))]
pub fn encode_reserved(out: &mut Vec<u8>, message: &Message)
    requires fits { Fits message.now }
    requires room { vec_len out.old + length (frame message.now) ≤ vec_capacity out.old }
    ensures frame { out.new.items ≡ out.old.items ++ frame message.now }
    ensures capacity { vec_capacity out.old ≤ vec_capacity out.new }
    ensures len { vec_len out.new ≡ vec_len out.old + length (frame message.now) }
    ensures most { length (frame message.now) ≤ MOST_FRAME }
    ensures single { IsSingle message.now → length (frame message.now) ≤ MOST_SINGLE_FRAME }
    ensures kind { length (frame message.now) ≤ most_bytes message.now }
    // The cards of its deals are dealt too, so that the frame decodes to the message.
    ensures message { IsMessage message.now }
{
    put_number(out, payload_len(message) as u32);
    out.push_reserved(VERSION);
    out.push_reserved(Kind::of_message(message).byte());
    put_body(out, message);
}
