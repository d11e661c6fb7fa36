//! Records on a way, as the second writing has them.

ghost use Rattle.std.specs.Prelude.{◌≤◌, length};

use crate::samples::{BEAT_BYTES, assert_bytes, hellos, key, rising};
use crate::vectors::LONG_DIGEST;
use arrayvec::ArrayVec;
use peer_codes::limits::MOST_RECORD;
use peer_codes::{Kind, Role, Way};
use sha2::{Digest, Sha256};

/// A coded record; nothing where no number is left.
fn covered(way: &mut Way, kind: Kind, body: &[u8]) -> ArrayVec<u8, MOST_RECORD>
    requires { length body.now ≤ 4100 }
{
    let mut out = ArrayVec::new();
    if way.has_number() {
        way.cover(kind, body, &mut out);
    }
    out
}

/// The seal goes on over the blocks of ChaCha20, and the beat behind is under its next whole word.
#[test]
fn a_long_frame_and_a_beat_are_those_of_the_second_writing(rt: HostRuntime) {
    let body: [u8; 4100] = rising(0);
    let mut way = hellos().way(&key(), Role::Caller);
    let mut digest = Sha256::new();
    digest.update(covered(&mut way, Kind::Frame, &body).as_slice());
    digest.update(covered(&mut way, Kind::Beat, &BEAT_BYTES).as_slice());
    assert_bytes(&rt, &digest.finalize(), &LONG_DIGEST);
}
