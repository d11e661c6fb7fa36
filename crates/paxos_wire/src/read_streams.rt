//! The messages of a whole stream, however its bytes are cut into pieces.

ghost use Rattle.std.specs.Prelude.{◌≡◌, length, ◌<◌, IfSome, IfOk, IfErr, OnOk, ℕ, List, Option, IfNone};
ghost use Rattle.std.specs.List.{flat_map, AllByRecursion};
ghost use Rattle.paxos_wire.specs.declared.message.Message.{Message};
ghost use Rattle.paxos_wire.specs.Fits.{IsMessage};
ghost use Rattle.paxos_wire.specs.declared.fault.FrameFault.{FrameFault};
ghost use Rattle.paxos_wire.specs.Stream.{IsStreamOf, IsPartial, IsFaulty, IsRest, Splits};

use crate::fault::FrameFault;
use crate::feed::Feed;
use crate::kept_message::KeptMessage;
use crate::message_room::MessageRoom;
use std::alloc::{AllocError, Global};

/// Takes the next message out of a feed, through the room; `None` where there is none yet, an `Err` inside at the fault.
fn take_message(
    alloc: Global,
    feed: &mut Feed,
    room: &mut MessageRoom,
    messages: &mut Vec<KeptMessage>,
) -> Result<Option<Result<(), FrameFault>>, AllocError>
    ensures stream { OnOk result ((stream : List ℕ) → IsStreamOf messages.old.items feed.old.waiting stream → IsStreamOf messages.new.items feed.new.waiting stream) }
    ensures each { AllByRecursion IsMessage messages.old.items → AllByRecursion IsMessage messages.new.items }
    ensures waits { IfOk result (λ taken. IfNone taken (IsPartial feed.new.waiting)) }
    ensures taken { IfOk result (λ taken. IfSome taken (λ r. IfOk r (λ _. length feed.new.waiting < length feed.old.waiting))) }
    ensures fault { IfOk result (λ taken. IfSome taken (λ r. IfErr r (λ f. IsFaulty feed.new.waiting f))) }
{
    match feed.next(room) {
        None => Ok(None),
        Some(Ok(message)) => {
            let kept = KeptMessage::of(alloc, &message)?;
            messages.push(kept)?;
            Ok(Some(Ok(())))
        }
        Some(Err(fault)) => Ok(Some(Err(fault))),
    }
}

/// Takes every message that is whole out of a feed, through the room, up to its fault, if it has one.
fn take_messages(
    alloc: Global,
    feed: &mut Feed,
    room: &mut MessageRoom,
    messages: &mut Vec<KeptMessage>,
) -> Result<Option<FrameFault>, AllocError>
    ensures stream { OnOk result ((stream : List ℕ) → IsStreamOf messages.old.items feed.old.waiting stream → IsStreamOf messages.new.items feed.new.waiting stream) }
    ensures each { AllByRecursion IsMessage messages.old.items → AllByRecursion IsMessage messages.new.items }
    ensures rest { IfOk result (λ fault. IsRest fault feed.new.waiting) }
{
    while let Some(taken) = take_message(alloc, feed, room, messages)? {
        if let Err(fault) = taken {
            return Ok(Some(fault));
        }
    }
    Ok(None)
}

/// The messages of a stream that comes in these pieces, in order, and its first fault, if it has one.
pub fn read_stream(
    alloc: Global,
    pieces: &[Vec<u8>],
) -> Result<(Vec<KeptMessage>, Option<FrameFault>), AllocError>
    // The stream is these messages, and then less than a frame, or this fault.
    ensures splits { IfOk result (λ x. Splits (flat_map (λ piece. piece.items) pieces.now) x.0.items x.1) }
    // It is no others, so it doesn't matter how the stream was cut into pieces.
    ensures only { IfOk result (λ x. (others : List Message) (fault : Option FrameFault) →
        Splits (flat_map (λ piece. piece.items) pieces.now) others fault → (others ≡ x.0.items) × (fault ≡ x.1)) }
{
    let mut feed = Feed::new(alloc);
    let mut room = MessageRoom::new();
    let mut messages = Vec::new(alloc);
    for piece in pieces {
        feed.feed(piece)?;
        if let Some(fault) = take_messages(alloc, &mut feed, &mut room, &mut messages)? {
            return Ok((messages, Some(fault)));
        }
    }
    Ok((messages, None))
}
