//! Two nodes of three, and what they say.

ghost use Rattle.std.specs.Prelude.{◌≡◌, true};
ghost use Rattle.peer_codes.specs.Steps.{is_coded};

use node_links::{Own, OwnReport};
use peer_codes::{Ends, Frame, Hello, Key, Life, Link, MatchDigest, Nonce, Version};
use std::process::Abort;

/// The frame of an Ask from slot 1.
pub(crate) const ASK: [u8; 10] = [0, 0, 0, 6, 2, 7, 0, 0, 0, 1];

/// The frame of an Accepted of the ballot (1, 1) at slot 0, of a fold of seat 0 in hand 0.
pub(crate) const ACCEPTED: [u8; 28] = [
    0, 0, 0, 24, 2, 5, 0, 0, 0, 1, 1, 0, 0, 0, 0, 1, 2, 0, 0, 0, 0, 0, 0, 0, 0, 0, 0, 0,
];

/// The frame of a Chosen of the same at slot 63, the last of its block.
pub(crate) const CHOSEN: [u8; 22] = [
    0, 0, 0, 18, 2, 6, 0, 0, 0, 63, 2, 0, 0, 0, 0, 0, 0, 0, 0, 0, 0, 0,
];

/// The frame of an Accept of the same.
pub(crate) const ACCEPT: [u8; 28] = [
    0, 0, 0, 24, 2, 4, 0, 0, 0, 1, 1, 0, 0, 0, 0, 1, 2, 0, 0, 0, 0, 0, 0, 0, 0, 0, 0, 0,
];

/// The frame of a Prepare of the ballot (7, 1) from slot 0 on.
pub(crate) const PREPARE: [u8; 15] = [0, 0, 0, 11, 2, 1, 0, 0, 0, 7, 1, 0, 0, 0, 0];

/// The frame of a Refuse of the ballot (1, 0) at slot 0, by who has promised (5, 2).
pub(crate) const REFUSE: [u8; 20] = [0, 0, 0, 16, 2, 3, 0, 0, 0, 1, 0, 0, 0, 0, 0, 0, 0, 0, 5, 2];

/// A node that has applied 37 commands, and campaigns.
pub(crate) const TOLD: OwnReport = OwnReport {
    front: 37,
    campaigns: true,
    over: false,
    seats: 5,
};

/// The record of its first beat.
pub(crate) const BEAT_RECORD: [u8; 20] = [
    0, 0, 0, 16, 3, 0, 0, 0, 1, 0, 0, 0, 0, 0, 0, 0, 37, 1, 0, 5,
];

/// The record of the first beat of a node that has applied 10 commands.
pub(crate) const LOW_BEAT_RECORD: [u8; 20] = [
    0, 0, 0, 16, 3, 0, 0, 0, 1, 0, 0, 0, 0, 0, 0, 0, 10, 0, 0, 0,
];

/// A Forward of act 0 of hand 0.
pub(crate) const FORWARD: [u8; 18] = [0, 0, 0, 14, 2, 8, 2, 0, 0, 0, 0, 0, 0, 1, 0, 0, 0, 0];

/// The record of that Ask.
pub(crate) const ASK_RECORD: [u8; 15] = [0, 0, 0, 11, 2, 0, 0, 0, 6, 2, 7, 0, 0, 0, 1];

/// A key of such bytes.
pub(crate) fn key(byte: u8) -> Key {
    Key { bytes: [byte; 32] }
}

/// A node of three, in the match of this digest, with a key of such bytes or none; its life is its number and one.
pub(crate) fn own(number: u8, digest: u8, bytes: Option<u8>) -> Own {
    Own {
        number,
        nodes: 3,
        digest: MatchDigest {
            bytes: [digest; 32],
        },
        life: life(number.wrapping_add(1)),
        key: match bytes {
            Some(byte) => Some(key(byte)),
            None => None,
        },
    }
}

pub(crate) fn life(byte: u8) -> Life {
    Life { bytes: [byte; 16] }
}

/// What a node says first to another, of which it keeps no life.
pub(crate) fn hello(from: u8, to: u8) -> Hello {
    Hello {
        version: Version::First,
        ends: Ends { from, to, nodes: 3 },
        digest: MatchDigest { bytes: [9; 32] },
        life: life(from.wrapping_add(1)),
        kept: None,
        promised: None,
        link: Link::Plain,
    }
}

/// The same with a nonce of such bytes.
pub(crate) fn coded_hello(from: u8, to: u8, nonce: u8) -> Hello
    ensures { is_coded result.link ≡ true }
{
    Hello {
        link: Link::Coded(Nonce { bytes: [nonce; 32] }),
        ..hello(from, to)
    }
}

/// The same Hello in the second version.
pub(crate) fn second(hello: Hello) -> Hello {
    Hello {
        version: Version::Second,
        ..hello
    }
}

/// The record of the Hello of node 1 to node 0.
pub(crate) const HELLO_RECORD: [u8; 82] = [
    0, 0, 0, 78, 0, 72, 68, 78, 49, 0, 1, 0, 3, 9, 9, 9, 9, 9, 9, 9, 9, 9, 9, 9, 9, 9, 9, 9, 9, 9,
    9, 9, 9, 9, 9, 9, 9, 9, 9, 9, 9, 9, 9, 9, 9, 2, 2, 2, 2, 2, 2, 2, 2, 2, 2, 2, 2, 2, 2, 2, 2, 0,
    0, 0, 0, 0, 0, 0, 0, 0, 0, 0, 0, 0, 0, 0, 0, 0, 0, 0, 0, 0,
];

/// A frame of these bytes.
pub(crate) fn frame(rt: &impl Abort, bytes: &[u8]) -> Frame {
    match Frame::new(bytes) {
        Some(frame) => frame,
        None => panic!(rt; "no frame"),
    }
}

/// The two are equal; where they aren't, both are printed.
pub(crate) fn assert_bytes(rt: &impl Abort, found: &[u8], expected: &[u8]) {
    assert_eq!(rt; found, expected);
}

/// This holds.
pub(crate) fn assert_that(rt: &impl Abort, holds: bool) {
    assert!(rt; holds);
}

/// The two are equal.
pub(crate) fn assert_number(rt: &impl Abort, found: u64, expected: u64) {
    assert_eq!(rt; found, expected);
}
