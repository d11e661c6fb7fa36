//! One way of a connection: its key, the number of the next record, and its seal.

ghost use Rattle.std.specs.Prelude.{◌≡◌, ◌-◌, ◌<◌, ◌≤◌, length, nat_lt, OnOk, OnErr};
ghost use Rattle.peer_codes.specs.Returned.{Answers};
ghost use Rattle.peer_codes.specs.Codes.{fresh_way, pad, xored, record_tag, coded, after, uncovered};

use crate::connection_fault::ConnectionFault;
use crate::fault::RecordFault;
use crate::hmac::{HashedKey, is_same};
use crate::kind::Kind;
use crate::limits::{KEY_BYTES, LAST_NUMBER, MOST_CONTENT, MOST_FRAME, MOST_RECORD, TAG_BYTES};
use crate::version::Version;
use crate::writing::{CONTENT_AT, begin_envelope};
use arrayvec::ArrayVec;
use byteorder::{BigEndian, ByteOrder};
use paxos_wire::push_all;
use rand_chacha::ChaCha20Rng;
use rand_core::SeedableRng;
use rand_core::utils::fill_bytes_via_u32;

/// Most frames and each beat have at most so many bytes.
const SHORT: usize = 256;

/// One way of a connection: who holds it can code what is said on it, and read what was coded.
#[derive(Drop)]
pub struct Way {
    /// The version of the Hellos that it was made from.
    version: Version,
    key: HashedKey,
    /// The number of the next record, counted from 0.
    number: u64,
    /// The stream that hides what is sent, from the next record on.
    seal: ChaCha20Rng,
}

/// Each byte with one of the others.
fn mix(bytes: &mut [u8], others: &[u8])
    requires { length bytes.old ≤ length others.now }
    ensures { bytes.new ≡ xored bytes.old others.now }
{
    for place in 0..bytes.len() {
        bytes[place] ^= others[place];
    }
}

/// The next bytes of a seal.
#[tactic(auto, unfolding(crate::specs::Codes::pad))]
fn fill(seal: &mut ChaCha20Rng, out: &mut [u8])
    ensures bytes { out.new ≡ (pad (length out.old) seal.old).0 }
    ensures seal { seal.new ≡ (pad (length out.old) seal.old).1 }
{
    fill_bytes_via_u32(seal, out);
}

/// Bytes under a seal, or from under it, with room for as many of the seal's.
fn mask_by(seal: &mut ChaCha20Rng, bytes: &mut [u8], room: &mut [u8])
    requires { length bytes.old ≤ length room.old }
    ensures bytes { bytes.new ≡ xored bytes.old (pad (length bytes.old) seal.old).0 }
    ensures seal { seal.new ≡ (pad (length bytes.old) seal.old).1 }
{
    let others = &mut room[..bytes.len()];
    fill(seal, others);
    mix(bytes, others);
}

/// Short bytes under a seal, or from under it.
fn mask_short(seal: &mut ChaCha20Rng, bytes: &mut [u8])
    requires { length bytes.old ≤ SHORT }
    ensures bytes { bytes.new ≡ xored bytes.old (pad (length bytes.old) seal.old).0 }
    ensures seal { seal.new ≡ (pad (length bytes.old) seal.old).1 }
{
    mask_by(seal, bytes, &mut [0; SHORT]);
}

/// Any bytes of a frame under a seal, or from under it.
fn mask_long(seal: &mut ChaCha20Rng, bytes: &mut [u8])
    requires { length bytes.old ≤ MOST_FRAME }
    ensures bytes { bytes.new ≡ xored bytes.old (pad (length bytes.old) seal.old).0 }
    ensures seal { seal.new ≡ (pad (length bytes.old) seal.old).1 }
{
    mask_by(seal, bytes, &mut [0; MOST_FRAME]);
}

/// Bytes under a seal, or from under it, without clearing more room than it takes where they are short.
fn mask(seal: &mut ChaCha20Rng, bytes: &mut [u8])
    requires { length bytes.old ≤ MOST_FRAME }
    ensures bytes { bytes.new ≡ xored bytes.old (pad (length bytes.old) seal.old).0 }
    ensures seal { seal.new ≡ (pad (length bytes.old) seal.old).1 }
{
    if bytes.len() <= SHORT {
        mask_short(seal, bytes);
    } else {
        mask_long(seal, bytes);
    }
}

impl Way {
    /// A way on which nothing was said.
    pub(crate) fn new(version: Version, key: [u8; KEY_BYTES]) -> Way
        ensures { result ≡ fresh_way version key }
    {
        let key = HashedKey::new(&key);
        let seal = key.tag(b"HDN1 seal", &[]);
        Way {
            version,
            key,
            number: 0,
            seal: ChaCha20Rng::from_seed(seal),
        }
    }

    /// The tag of what is sent, as the next record of this kind.
    fn record_tag(&self, kind: Kind, sent: &[u8]) -> [u8; TAG_BYTES]
        ensures { result ≡ record_tag self.now kind sent.now }
    {
        let mut front = [0; 9];
        BigEndian::write_u64(&mut front, self.number);
        front[8] = kind.byte();
        self.key.tag(&front, sent)
    }

    /// The version of the Hellos that it was made from.
    pub fn version(&self) -> Version
        ensures { result ≡ self.now.version }
    {
        self.version
    }

    /// Whether another record can be said: all but the last number are used.
    pub fn has_number(&self) -> bool
        ensures { result ≡ nat_lt self.now.number LAST_NUMBER }
    {
        self.number < LAST_NUMBER
    }

    /// Writes the coded record of this kind with this body in place of what stood there, and the way goes on to the next
    /// number.
    pub fn cover(&mut self, kind: Kind, body: &[u8], out: &mut ArrayVec<u8, MOST_RECORD>)
        requires number { self.old.number < LAST_NUMBER }
        requires most { length body.now ≤ MOST_FRAME }
        ensures text { out.new.items ≡ coded self.old kind body.now }
        ensures way { self.new ≡ after self.old (length body.now) }
    {
        let number = self.number;
        begin_envelope(out, kind, body.len() + TAG_BYTES);
        push_all(out, body);
        mask(&mut self.seal, &mut out.as_mut_slice()[CONTENT_AT..]);
        let tag = self.record_tag(kind, &out.as_slice()[CONTENT_AT..]);
        push_all(out, &tag);
        self.number = number + 1;
    }

    /// Writes the body of the coded record of this kind in place of what stood there, and the way goes on to the next number. A
    /// fault doesn't change the way.
    ///
    /// The fault is the first of: 126 `UnexpectedRecord` (no number is left), 120 `BadLength` (no room for a tag), 125
    /// `WrongTag`.
    #[tactic(auto, unfolding(crate::specs::Codes::uncovered))]
    pub fn uncover(
        &mut self,
        kind: Kind,
        content: &[u8],
        body: &mut ArrayVec<u8, MOST_FRAME>,
    ) -> Result<(), ConnectionFault>
        requires { length content.now ≤ MOST_CONTENT }
        ensures body { Answers result body.new (uncovered self.old kind content.now) }
        ensures ok { OnOk result (self.new ≡ after self.old (length content.now - TAG_BYTES)) }
        ensures err { OnErr result (self.new ≡ self.old) }
    {
        if self.number >= LAST_NUMBER {
            return Err(ConnectionFault::UnexpectedRecord);
        }
        if content.len() < TAG_BYTES {
            return Err(ConnectionFault::Record(RecordFault::BadLength));
        }
        let count = content.len() - TAG_BYTES;
        let (sent, claimed) = content.split_at(count);
        if !is_same(claimed, &self.record_tag(kind, sent)) {
            return Err(ConnectionFault::WrongTag);
        }
        self.number += 1;
        body.clear();
        push_all(body, sent);
        mask(&mut self.seal, body.as_mut_slice());
        Ok(())
    }
}
