//! What the tests share: the key and both Hellos of a connection, a frame and a beat, and how bytes are compared.

ghost use Rattle.std.specs.Prelude.{◌≡◌, true};
ghost use Rattle.peer_codes.specs.Steps.{is_coded};

use crate::vectors::DIGEST;
use paxos_wire::Ballot;
use peer_codes::{Beat, Ends, Hello, Hellos, Key, Life, Link, MatchDigest, More, Nonce, Version};
use std::process::Abort;

/// The frame of an Ask from slot 1.
pub(crate) const ASK: [u8; 10] = [0, 0, 0, 6, 1, 7, 0, 0, 0, 1];

pub(crate) const BEAT: Beat = Beat {
    number: 1,
    got: 0,
    front: 37,
    campaigns: true,
    over: false,
    seats: 5,
};

/// The bytes of that beat.
pub(crate) const BEAT_BYTES: [u8; 15] = [0, 0, 0, 1, 0, 0, 0, 0, 0, 0, 0, 37, 1, 0, 5];

/// The byte of the kind of records that tell lives.
pub(crate) const LIVES: u8 = 4;

/// The lives of two stores of three, as such a record has them.
pub(crate) const LIVES_BYTES: [u8; 48] = [
    1, 2, 3, 4, 5, 6, 7, 8, 9, 10, 11, 12, 13, 14, 15, 16, 17, 18, 19, 20, 21, 22, 23, 24, 25, 26,
    27, 28, 29, 30, 31, 32, 0, 0, 0, 0, 0, 0, 0, 0, 0, 0, 0, 0, 0, 0, 0, 0,
];

/// A record of this kind that tells them.
pub(crate) fn lives(kind: u8) -> Option<More> {
    More::new(kind, &LIVES_BYTES)
}

/// Bytes that rise by one from the first.
pub(crate) fn rising<const COUNT: usize>(first: u8) -> [u8; COUNT] {
    let mut bytes = [0; COUNT];
    let mut next = first;
    for byte in bytes.iter_mut() {
        *byte = next;
        next = next.wrapping_add(1);
    }
    bytes
}

pub(crate) fn key() -> Key {
    Key { bytes: rising(0) }
}

pub(crate) fn caller() -> Hello
    ensures { is_coded result.link ≡ true }
{
    Hello {
        version: Version::First,
        ends: Ends {
            from: 1,
            to: 0,
            nodes: 3,
        },
        digest: MatchDigest { bytes: DIGEST },
        life: Life { bytes: rising(17) },
        kept: Some(Life { bytes: rising(1) }),
        promised: Some(Ballot { round: 7, node: 2 }),
        link: Link::Coded(Nonce { bytes: rising(100) }),
    }
}

pub(crate) fn called() -> Hello
    ensures { is_coded result.link ≡ true }
{
    Hello {
        version: Version::First,
        ends: Ends {
            from: 0,
            to: 1,
            nodes: 3,
        },
        digest: MatchDigest { bytes: DIGEST },
        life: Life { bytes: rising(1) },
        kept: None,
        promised: None,
        link: Link::Coded(Nonce { bytes: rising(200) }),
    }
}

/// The same side in the second version.
pub(crate) fn second(hello: Hello) -> Hello
    ensures { result.link ≡ hello.link }
{
    Hello {
        version: Version::Second,
        ..hello
    }
}

/// A side that drew other bytes for another connection.
pub(crate) fn with_nonce(hello: Hello, first: u8) -> Hello
    ensures { is_coded result.link ≡ true }
{
    Hello {
        link: Link::Coded(Nonce {
            bytes: rising(first),
        }),
        ..hello
    }
}

pub(crate) fn hellos() -> Hellos {
    Hellos {
        caller: caller(),
        called: called(),
    }
}

// What `assert_eq!` makes is proved anew wherever it stands, so it stands in the functions below.

/// The two are equal; where they aren't, both are printed.
pub(crate) fn assert_bytes(rt: &impl Abort, found: &[u8], expected: &[u8]) {
    assert_eq!(rt; found, expected);
}

/// Sees that a condition holds.
pub(crate) fn assert_that(rt: &impl Abort, holds: bool, otherwise: &str) {
    assert!(rt; holds, "{otherwise}");
}
