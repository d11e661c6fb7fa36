//! Beats, read from the bytes of a record.

ghost use Rattle.std.specs.Prelude.{◌≡◌, ◌<◌, ◌≤◌, length};
ghost use Rattle.peer_codes.specs.Reading.{beat_of};

use crate::beat::Beat;
use crate::fault::RecordFault;
use crate::limits::BEAT_BYTES;
use byteorder::{BigEndian, ByteOrder};

/// The beat with this text, all of the bytes.
#[tactic(auto, unfolding(crate::specs::Reading::beat_of))]
pub(crate) fn beat_of(bytes: &[u8]) -> Result<Beat, RecordFault>
    ensures { result ≡ beat_of bytes.now }
{
    if bytes.len() != BEAT_BYTES {
        return Err(RecordFault::BadLength);
    }
    let flags = bytes[12];
    if flags > 3 {
        return Err(RecordFault::BadKind);
    }
    Ok(Beat {
        number: BigEndian::read_u32(bytes),
        got: BigEndian::read_u32(&bytes[4..]),
        front: BigEndian::read_u32(&bytes[8..]),
        campaigns: flags % 2 == 1,
        over: flags >= 2,
        seats: BigEndian::read_u16(&bytes[13..]),
    })
}
