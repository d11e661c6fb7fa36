//! Bytes, numbers, slots and ballots, read from the front of bytes.

ghost use Rattle.std.specs.Prelude.{◌<◌, IfSome};
ghost use Rattle.paxos_wire.specs.Reading.{Gives, byte_at, number_at, below_at, ballot_at};

use crate::ballot::Ballot;
use crate::limits::SLOTS;
use crate::version::Version;
use byteorder::{BigEndian, ByteOrder};

/// A byte, and the bytes after it.
pub(crate) fn read_byte(bytes: &[u8]) -> Option<(u8, &[u8])>
    ensures { Gives (λ x. (x.0, x.1.now)) result (byte_at bytes.now) }
{
    match bytes {
        [] => None,
        [byte, rest @ ..] => Some((*byte, rest)),
    }
}

/// A number of four bytes, and the bytes after it.
pub(crate) fn read_number(bytes: &[u8]) -> Option<(u32, &[u8])>
    ensures { Gives (λ x. (x.0, x.1.now)) result (number_at 4 bytes.now) }
{
    if bytes.len() < 4 {
        return None;
    }
    Some((BigEndian::read_u32(bytes), &bytes[4..]))
}

/// A number of four bytes below a limit, and the bytes after it.
#[tactic(auto, unfolding(crate::specs::Reading::below_at))]
pub(crate) fn read_below(bytes: &[u8], limit: u32) -> Option<(u32, &[u8])>
    ensures below { IfSome result (λ x. x.0 < limit) }
    ensures exact { Gives (λ x. (x.0, x.1.now)) result (below_at 4 limit bytes.now) }
{
    let (number, rest) = read_number(bytes)?;
    if number < limit {
        Some((number, rest))
    } else {
        None
    }
}

/// A number of two bytes below a limit, and the bytes after it.
#[tactic(auto, unfolding(crate::specs::Reading::below_at))]
pub(crate) fn read_short_below(bytes: &[u8], limit: u16) -> Option<(u16, &[u8])>
    ensures { Gives (λ x. (x.0, x.1.now)) result (below_at 2 limit bytes.now) }
{
    if bytes.len() < 2 {
        return None;
    }
    let number = BigEndian::read_u16(bytes);
    if number < limit {
        Some((number, &bytes[2..]))
    } else {
        None
    }
}

/// A slot, which is a number of four bytes below 4,000,000, and the bytes after it.
pub(crate) fn read_slot(bytes: &[u8]) -> Option<(u32, &[u8])>
    ensures below { IfSome result (λ x. x.0 < SLOTS) }
    ensures exact { Gives (λ x. (x.0, x.1.now)) result (below_at 4 SLOTS bytes.now) }
{
    read_below(bytes, SLOTS)
}

/// A ballot of a node of this version, and the bytes after it.
#[tactic(auto, unfolding(crate::specs::Reading::ballot_at))]
pub(crate) fn read_ballot(version: Version, bytes: &[u8]) -> Option<(Ballot, &[u8])>
    ensures { Gives (λ x. (x.0, x.1.now)) result (ballot_at version bytes.now) }
{
    let (round, rest) = read_number(bytes)?;
    let (node, rest) = read_byte(rest)?;
    if round > 0 && node < version.nodes() {
        Some((Ballot { round, node }, rest))
    } else {
        None
    }
}
