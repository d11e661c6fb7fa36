//! The settings that a process tells, as a record of a further kind.

ghost use Rattle.std.specs.Prelude.{◌≡◌};
ghost use Rattle.byteorder.specs.Endian.{big_bytes};
ghost use Rattle.node_links.specs.Telling.{settings_of, settings_text, settings_more};

use crate::limits::{SETTINGS, SETTINGS_BYTES, TOKENS_BYTES};
use arrayvec::ArrayVec;
use byteorder::{BigEndian, ByteOrder};
use paxos_wire::push_all;
use peer_codes::{More, RecordFault};

/// What the match file of a process says that isn't in the digest of the match: where two differ, that is told and nothing
/// refused.
#[derive(Clone, Copy, Debug, PartialEq, Eq)]
pub struct Settings {
    /// How long a seat is waited for until it is played for, in whole milliseconds; 0 where the file doesn't say.
    pub patience: u32,
    /// How long the bots of all seats are waited for at the start, in whole milliseconds; 0 where the file doesn't say.
    pub start: u32,
    /// 1 where a seat whose connection was lost is waited for (`away = "wait"`), else 0.
    pub away: u32,
    /// The first bytes of SHA-256 over the digests of all tokens, in the order of seats.
    pub tokens: [u8; TOKENS_BYTES],
}

/// The settings with these bytes, all of them; 120 `BadLength` where there are more or fewer.
pub fn settings_of(bytes: &[u8]) -> Result<Settings, RecordFault>
    ensures { result ≡ settings_of bytes.now }
{
    if bytes.len() != SETTINGS_BYTES {
        return Err(RecordFault::BadLength);
    }
    let mut tokens = [0; TOKENS_BYTES];
    tokens.copy_from_slice(&bytes[12..]);
    Ok(Settings {
        patience: BigEndian::read_u32(bytes),
        start: BigEndian::read_u32(&bytes[4..]),
        away: BigEndian::read_u32(&bytes[8..]),
        tokens,
    })
}

/// The four bytes of a number.
pub(crate) fn number_bytes(number: u32) -> [u8; 4]
    ensures { result ≡ big_bytes 4 number }
{
    let mut bytes = [0; 4];
    BigEndian::write_u32(&mut bytes, number);
    bytes
}

impl Settings {
    /// Their bytes.
    fn text(&self) -> ArrayVec<u8, SETTINGS_BYTES>
        ensures { result.items ≡ settings_text self.now }
    {
        let mut text = ArrayVec::new();
        push_all(&mut text, &number_bytes(self.patience));
        push_all(&mut text, &number_bytes(self.start));
        push_all(&mut text, &number_bytes(self.away));
        push_all(&mut text, &self.tokens);
        text
    }

    /// The record that tells them.
    pub(crate) fn more(&self) -> More
        ensures { result ≡ settings_more self.now }
    {
        let text = self.text();
        match More::new(SETTINGS, text.as_slice()) {
            Some(more) => more,
            None => unreachable!(),
        }
    }
}
