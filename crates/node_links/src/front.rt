//! What stands in front of a stream of records, where it lies.

ghost use Rattle.std.specs.Prelude.{◌≡◌, ◌<◌, ◌≤◌, ◌↔◌, length, drop, true, Ok, IsNone, IfSome};
ghost use Rattle.peer_codes.specs.declared.kind.Kind.TheVariants as kind_of;
ghost use Rattle.peer_codes.specs.Faults.{needed, kind_in, IsPartial};
ghost use Rattle.peer_codes.specs.Reading.{is_frame};
ghost use Rattle.node_links.specs.Fronts.{StandsIn};

use byteorder::{BigEndian, ByteOrder};
use peer_codes::Kind;
use peer_codes::limits::{LEAST_FRAME, LENGTH_BYTES, MOST_FRAME, MOST_LENGTH};

/// Where what stands behind the kind of a record begins.
pub(crate) const CONTENT_AT: usize = 5;

/// What stands in front of a stream of records.
#[derive(Clone, Copy)]
pub(crate) enum Front {
    /// Neither a whole record nor a fault.
    Partial,
    /// A record of a frame, which ends there.
    Frame(usize),
    /// Another record, or a fault.
    Other,
}

/// Where the record in front ends, or the length that no record may have; `None` while it isn't whole.
#[tactic(auto, unfolding(peer_codes::specs::Faults::needed))]
fn front_end(bytes: &[u8]) -> Option<usize>
    ensures partial { IsNone result ↔ IsPartial bytes.now }
    ensures end { IfSome result (λ end. end ≡ needed bytes.now) }
    ensures there { IfSome result (λ end. end ≤ length bytes.now) }
{
    if bytes.len() < LENGTH_BYTES {
        return None;
    }
    let length = BigEndian::read_u32(bytes) as usize;
    let end = if 1 <= length && length <= MOST_LENGTH {
        LENGTH_BYTES + length
    } else {
        LENGTH_BYTES
    };
    if bytes.len() < end { None } else { Some(end) }
}

/// Whether these bytes are the record of a frame.
#[tactic(auto, unfolding(peer_codes::specs::Faults::kind_in))]
fn is_frame(bytes: &[u8]) -> bool
    ensures { result ≡ true → (kind_in bytes.now ≡ Ok kind_of.Frame) × (is_frame (drop 5 bytes.now) ≡ true) }
{
    if bytes.len() < CONTENT_AT + LEAST_FRAME || bytes.len() > CONTENT_AT + MOST_FRAME {
        return false;
    }
    bytes[LENGTH_BYTES] == Kind::Frame.byte()
}

/// What stands in front of these bytes.
pub(crate) fn front_of(bytes: &[u8]) -> Front
    ensures { StandsIn result bytes.now }
{
    let Some(end) = front_end(bytes) else {
        return Front::Partial;
    };
    if is_frame(&bytes[..end]) {
        Front::Frame(end)
    } else {
        Front::Other
    }
}
