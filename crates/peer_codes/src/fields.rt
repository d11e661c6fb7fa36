//! The fields of records, read from the front of bytes.

ghost use Rattle.std.specs.Prelude.{◌≡◌, length};
ghost use Rattle.std.specs.List.{list_all};
ghost use Rattle.paxos_wire.specs.Reading.{Gives, byte_at, number_at, bytes_at};
ghost use Rattle.peer_codes.specs.Fits.{are_zeros};

use byteorder::{BigEndian, ByteOrder};

/// A byte, and the bytes after it.
pub(crate) fn read_byte(bytes: &[u8]) -> Option<(u8, &[u8])>
    ensures { Gives (λ x. (x.0, x.1.now)) result (byte_at bytes.now) }
{
    match bytes {
        [] => None,
        [byte, rest @ ..] => Some((*byte, rest)),
    }
}

/// A number of four bytes, and the bytes after it.
pub(crate) fn read_number(bytes: &[u8]) -> Option<(u32, &[u8])>
    ensures { Gives (λ x. (x.0, x.1.now)) result (number_at 4 bytes.now) }
{
    if bytes.len() < 4 {
        return None;
    }
    Some((BigEndian::read_u32(bytes), &bytes[4..]))
}

/// So many bytes, and the bytes after them.
pub(crate) fn read_array<const COUNT: usize>(bytes: &[u8]) -> Option<([u8; COUNT], &[u8])>
    ensures { Gives (λ x. (x.0, x.1.now)) result (bytes_at COUNT bytes.now) }
{
    if bytes.len() < COUNT {
        return None;
    }
    let (front, rest) = bytes.split_at(COUNT);
    let mut array = [0; COUNT];
    array.copy_from_slice(front);
    Some((array, rest))
}

/// Whether each byte is 0.
pub(crate) fn are_zeros(bytes: &[u8]) -> bool
    ensures { result ≡ are_zeros bytes.now }
{
    bytes.iter().all(|byte| *byte == 0)
}
