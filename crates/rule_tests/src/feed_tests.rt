use crate::asserting::{holds, prints, same};
use crate::frames::{ACCEPT_OF_TWO, ACCEPTED_OF_TWO, FORWARD, OLD_ACCEPT, OLD_PREPARE, PREPARE};
use paxos_wire::{Ballot, Feed, FrameFault, KeptMessage, Message, MessageRoom, read_stream};
use std::alloc::{AllocError, Global};
use std::process::Abort;
use std::test::Fail;

/// What a feed answers to a piece.
#[derive(Clone, Copy, Debug, PartialEq, Eq)]
enum Next {
    /// Nothing, since more is to come.
    Nothing,
    /// Prepare of (1, 0) at slot 0.
    Prepare,
    /// Another message.
    Other,
    Fault(FrameFault),
}

/// What a feed answers.
fn next_of(feed: &mut Feed) -> Next {
    let mut room = MessageRoom::new();
    match feed.next(&mut room) {
        None => Next::Nothing,
        Some(Ok(message)) => named(&message),
        Some(Err(fault)) => Next::Fault(fault),
    }
}

/// The answer that is this message.
fn named(message: &Message) -> Next {
    match message {
        Message::Prepare {
            ballot: Ballot { round: 1, node: 0 },
            slot: 0,
        } => Next::Prepare,
        _ => Next::Other,
    }
}

/// Sees what a feed answers to a piece, which comes into room that is made for it.
fn answers(rt: &impl Abort, feed: &mut Feed, piece: &[u8], wanted: Next) -> Result<(), AllocError> {
    feed.reserve(piece.len())?;
    feed.feed_reserved(piece);
    same!(rt; next_of(feed), wanted);
    Ok(())
}

/// Pieces, and what a feed answers to each.
type Pieces = &'static [(&'static [u8], Next)];

/// Sees what a new feed answers to pieces.
fn feeds(rt: &impl Abort, alloc: Global, pieces: &[(&[u8], Next)]) -> Result<(), AllocError> {
    let mut feed = Feed::new(alloc);
    for &(piece, wanted) in pieces {
        answers(rt, &mut feed, piece, wanted)?;
    }
    Ok(())
}

/// What comes in pieces into room that is made for them, and what is answered.
static IN_PIECES: [Pieces; 7] = [
    &[(&PREPARE, Next::Prepare)],
    // a frame of the greatest length, which is at fault once its last byte is there, and a length above the limit, at fault
    // at once and from then on
    &[
        (&[0, 0, 0x10], Next::Nothing),
        (&[0], Next::Nothing),
        (&[1; 4095], Next::Nothing),
        (&[1], Next::Fault(FrameFault::BadBody)),
    ],
    &[
        (&[0, 0, 0x10], Next::Nothing),
        (&[1], Next::Fault(FrameFault::TooLong)),
        (&PREPARE, Next::Fault(FrameFault::TooLong)),
    ],
    // an Accept whose length is one less than its bytes, which is at fault at once, and one whose length is one more, which
    // waits and takes the first byte of the next frame; the same of an Accept of two commands
    &[
        (
            &[
                0, 0, 0, 0x12, 2, 4, 0, 0, 0, 1, 0, 0, 0, 0, 1, 1, 3, 0, 0, 0, 0, 0, 0,
            ],
            Next::Fault(FrameFault::BadBody),
        ),
        (&PREPARE, Next::Fault(FrameFault::BadBody)),
    ],
    &[
        (
            &[
                0, 0, 0, 0x14, 2, 4, 0, 0, 0, 1, 0, 0, 0, 0, 1, 1, 3, 0, 0, 0, 0, 0, 0,
            ],
            Next::Nothing,
        ),
        (&PREPARE, Next::Fault(FrameFault::BadBody)),
    ],
    &[
        (
            &[
                0, 0, 0, 0x26, 2, 4, 0, 0, 0, 1, 2, 0, 0, 0, 0, 2, 1, 0, 0, 0, 0, 9, 0x21, 0x33,
                0x1a, 0x20, 0, 0x18, 6, 0x1c, 0x2e, 2, 0, 0, 0, 0, 0, 0, 1, 0, 0, 0, 0,
            ],
            Next::Fault(FrameFault::BadBody),
        ),
        (&PREPARE, Next::Fault(FrameFault::BadBody)),
    ],
    &[
        (
            &[
                0, 0, 0, 0x28, 2, 4, 0, 0, 0, 1, 2, 0, 0, 0, 0, 2, 1, 0, 0, 0, 0, 9, 0x21, 0x33,
                0x1a, 0x20, 0, 0x18, 6, 0x1c, 0x2e, 2, 0, 0, 0, 0, 0, 0, 1, 0, 0, 0, 0,
            ],
            Next::Nothing,
        ),
        (&PREPARE, Next::Fault(FrameFault::BadBody)),
    ],
];

#[test]
fn a_piece_goes_into_room_that_was_reserved(rt: HostRuntime) -> Result<(), Fail> {
    for &pieces in &IN_PIECES {
        feeds(&rt, rt.alloc(), pieces)?;
    }
    Ok(())
}

/// Owned copies of the pieces of a stream.
fn owned(alloc: Global, pieces: &[&[u8]]) -> Result<Vec<Vec<u8>>, AllocError> {
    let mut copies = Vec::new(alloc);
    for piece in pieces {
        copies.push(Vec::from_slice(alloc, piece)?)?;
    }
    Ok(copies)
}

/// Sees what is printed of the first of kept messages, and how many there are.
fn begins_with(
    rt: &impl Abort,
    alloc: Global,
    messages: &[KeptMessage],
    count: usize,
    line: &str,
) -> Result<(), AllocError> {
    same!(rt; messages.len(), count);
    let first = messages.first().expect(rt, "a message");
    let mut room = MessageRoom::new();
    prints(rt, alloc, &first.read(&mut room), line)
}

/// Sees how many messages a stream in pieces has, what is printed of the first, and the fault at its end.
fn streams(
    rt: &impl Abort,
    alloc: Global,
    pieces: &[&[u8]],
    (count, line): (usize, &str),
    wanted: Option<FrameFault>,
) -> Result<(), AllocError> {
    let (messages, fault) = read_stream(alloc, &owned(alloc, pieces)?)?;
    holds!(rt; fault == wanted);
    begins_with(rt, alloc, &messages, count, line)
}

/// Both versions may stand in one stream, and say the same, also of more than one command.
#[test]
fn a_stream_in_pieces(rt: HostRuntime) -> Result<(), Fail> {
    let ends_in_a_fault = [
        &OLD_PREPARE[..],
        &PREPARE[..],
        &FORWARD[..7],
        &FORWARD[7..],
        &[0, 0, 0, 2, 2, 9][..],
    ];
    let prepare = (3, "Prepare (1, 0) from 0");
    let bad_kind = Some(FrameFault::BadKind);
    streams(&rt, rt.alloc(), &ends_in_a_fault, prepare, bad_kind)?;
    let of_two = [
        &OLD_ACCEPT[..],
        &ACCEPT_OF_TWO[..20],
        &ACCEPT_OF_TWO[20..],
        &PREPARE[..],
        &ACCEPTED_OF_TWO[..],
    ];
    let deal = (4, "Accept (1, 0) at 0: deal of hand 0");
    streams(&rt, rt.alloc(), &of_two, deal, None)?;
    same!(&rt; FrameFault::BadKind.code(), 53);
    Ok(())
}
