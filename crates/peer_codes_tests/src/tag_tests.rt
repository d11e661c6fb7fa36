//! Codes as RFC 4231 has them.

ghost use Rattle.std.specs.Prelude.{◌≤◌, length};

use crate::samples::{assert_bytes, rising};
use crate::vectors::{RFC_1, RFC_2, RFC_3, RFC_4, RFC_5, RFC_6, RFC_7};
use peer_codes::tag;
use sha2::{Digest, Sha256};

/// A key of 32 bytes that is as good as this shorter one.
fn key_of(bytes: &[u8]) -> [u8; 32]
    requires { length bytes.now ≤ 32 }
{
    let mut key = [0; 32];
    key[..bytes.len()].copy_from_slice(bytes);
    key
}

#[test]
fn codes_are_those_of_rfc_4231(rt: HostRuntime) {
    let found = tag(&key_of(&[0x0b; 20]), b"Hi ", b"There");
    assert_bytes(&rt, &found, &RFC_1);
    let found = tag(&key_of(b"Jefe"), b"what do ya want ", b"for nothing?");
    assert_bytes(&rt, &found, &RFC_2);
    let found = tag(&key_of(&[0xaa; 20]), &[0xdd; 50], b"");
    assert_bytes(&rt, &found, &RFC_3);
    let key: [u8; 25] = rising(1);
    let found = tag(&key_of(&key), b"", &[0xcd; 50]);
    assert_bytes(&rt, &found, &RFC_4);
    let found = tag(&key_of(&[0x0c; 20]), b"Test With Truncation", b"");
    assert_bytes(&rt, &found[..16], &RFC_5);
}

/// A key that is longer than a block is hashed first.
#[test]
fn codes_under_longer_keys_are_those_of_rfc_4231(rt: HostRuntime) {
    let key: [u8; 32] = Sha256::digest(&[0xaa; 131]);
    let found = tag(
        &key,
        b"Test Using Larger Than Block-Size Key - ",
        b"Hash Key First",
    );
    assert_bytes(&rt, &found, &RFC_6);
    let found = tag(
        &key,
        b"This is a test using a larger than block-size key and a larger than block-size data. ",
        b"The key needs to be hashed before being used by the HMAC algorithm.",
    );
    assert_bytes(&rt, &found, &RFC_7);
}
