//! HMAC-SHA256: the tag of a message under a key of 32 bytes, as RFC 2104 has it.

ghost use Rattle.std.specs.Prelude.{◌≡◌, ◌++◌};
ghost use Rattle.std.specs.Str.{bytes_eq};
ghost use Rattle.sha2.specs.Hashers.{Holds256};
ghost use Rattle.peer_codes.specs.Hmac.{padded, hmac};

use crate::limits::{KEY_BYTES, TAG_BYTES};
use sha2::{Digest, Sha256};
use std::marker::Model;

/// A key, of which both blocks are hashed once for all its messages. A contract sees the key.
#[derive(Drop)]
pub struct HashedKey {
    bytes: [u8; KEY_BYTES],
    /// The hash of the inner block, as far as that.
    inner: Sha256,
    /// The hash of the outer block.
    outer: Sha256,
}

impl Model for HashedKey {
    ghost use Rattle.std.specs.Prelude.{ℕ, List};
    ghost use Rattle.sha2.specs.Hashers.{Holds256};
    ghost use Rattle.peer_codes.specs.Hmac.{padded, inner_pad, outer_pad};

    ghost Value = { List ℕ };

    ghost view = { λ key. key.bytes };

    ghost invariant = { λ key. Holds256 key.inner (padded inner_pad key.bytes) × Holds256 key.outer (padded outer_pad key.bytes) };
}

impl HashedKey {
    /// Both blocks of the key, hashed.
    pub(crate) fn new(key: &[u8; KEY_BYTES]) -> HashedKey
        ensures { result ≡ key.now }
    {
        HashedKey {
            bytes: *key,
            inner: hashed(&block(key, 0x36)),
            outer: hashed(&block(key, 0x5C)),
        }
    }

    /// The tag of a message, in two pieces, under the key.
    #[tactic(auto, unfolding(crate::specs::Hmac::hmac))]
    pub(crate) fn tag(&self, front: &[u8], rest: &[u8]) -> [u8; TAG_BYTES]
        ensures { result ≡ hmac self.now (front.now ++ rest.now) }
    {
        let mut inner = again(&self.inner);
        inner.update(front);
        inner.update(rest);
        let inside = inner.finalize();
        let mut outer = again(&self.outer);
        outer.update(&inside);
        outer.finalize()
    }
}

/// The tag of a message, in two pieces, under a key.
pub fn tag(key: &[u8; KEY_BYTES], front: &[u8], rest: &[u8]) -> [u8; TAG_BYTES]
    ensures { result ≡ hmac key.now (front.now ++ rest.now) }
{
    HashedKey::new(key).tag(front, rest)
}

/// Whether two tags are the same. How long that takes tells nothing of use: a wrong tag closes its connection, and the
/// next has another key by its new nonces.
pub(crate) fn is_same(claimed: &[u8], own: &[u8]) -> bool
    ensures { result ≡ bytes_eq claimed.now own.now }
{
    claimed == own
}

/// A hasher that stands where the other does.
fn again(hasher: &Sha256) -> Sha256
    ensures { result ≡ hasher.now }
{
    match hasher.clone() {
        Ok(copy) => copy,
        Err(_) => unreachable!(),
    }
}

/// A hasher behind these bytes.
fn hashed(bytes: &[u8]) -> Sha256
    ensures { Holds256 result bytes.now }
{
    let mut hasher = Sha256::new();
    hasher.update(bytes);
    hasher
}

/// A block of the key with zeros behind it, each byte with the mask.
fn block(key: &[u8; KEY_BYTES], mask: u8) -> [u8; 64]
    ensures { result ≡ padded mask key.now }
{
    let mut block = [0u8; 64];
    block[..KEY_BYTES].copy_from_slice(key);
    for byte in block.iter_mut() {
        *byte ^= mask;
    }
    block
}
