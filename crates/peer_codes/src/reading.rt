//! Records, read from the front of a stream.

ghost use Rattle.std.specs.Prelude.{◌≡◌, ◌<◌, ◌≤◌, ◌+◌, ◌++◌, ◌↔◌, ℕ, List, length, drop, take, Ok, OnOk, IsNone, IfSome, IsSomeAnd, IfOk, IfErr};
ghost use Rattle.peer_codes.specs.declared.records.Record.{Record};
ghost use Rattle.peer_codes.specs.Fits.{IsRecord};
ghost use Rattle.peer_codes.specs.Spelling.{record_text};
ghost use Rattle.peer_codes.specs.Reading.{content_of};
ghost use Rattle.peer_codes.specs.Faults.{needed, kind_in, reading, IsPartial, IsFaulty};

use crate::beat_reading::beat_of;
use crate::fault::RecordFault;
use crate::frame::Frame;
use crate::hello_reading::hello_of;
use crate::kind::Kind;
use crate::limits::{LENGTH_BYTES, MOST_FRAME, MOST_LENGTH, MOST_RECORD, TAG_BYTES};
use crate::more::More;
use crate::records::{Proof, Record};
use arrayvec::ArrayVec;
use byteorder::{BigEndian, ByteOrder};
use paxos_wire::push_all;

/// Where the record in front ends, or the length that no record may have; `None` while it isn't whole.
#[tactic(auto, unfolding(crate::specs::Faults::needed))]
pub(crate) fn front_end(bytes: &[u8]) -> Option<usize>
    ensures partial { IsNone result ↔ IsPartial bytes.now }
    ensures end { IfSome result (λ end. end ≡ needed bytes.now) }
    ensures least { IfSome result (λ end. LENGTH_BYTES ≤ end) }
    ensures there { IfSome result (λ end. end ≤ length bytes.now) }
    ensures most { IfSome result (λ end. end ≤ MOST_RECORD) }
{
    if bytes.len() < LENGTH_BYTES {
        return None;
    }
    let length = BigEndian::read_u32(bytes) as usize;
    let end = if 1 <= length && length <= MOST_LENGTH {
        LENGTH_BYTES + length
    } else {
        LENGTH_BYTES
    };
    if bytes.len() < end { None } else { Some(end) }
}

/// The kind of what stands in front, or the fault that its length or its kind shows.
#[tactic(auto, unfolding(crate::specs::Faults::kind_in))]
pub(crate) fn kind_in(bytes: &[u8]) -> Result<Kind, RecordFault>
    ensures kind { result ≡ kind_in bytes.now }
    ensures there { OnOk result (5 ≤ length bytes.now) }
{
    if bytes.len() <= LENGTH_BYTES {
        return Err(RecordFault::BadLength);
    }
    match Kind::of_byte(bytes[LENGTH_BYTES]) {
        Some(kind) => Ok(kind),
        None => Err(RecordFault::BadKind),
    }
}

/// A proof of these bytes.
#[tactic(auto, unfolding(crate::specs::Reading::content_of))]
fn proof_of(bytes: &[u8]) -> Result<Record, RecordFault>
    ensures { result ≡ content_of Kind.Proof bytes.now }
{
    if bytes.len() != TAG_BYTES {
        return Err(RecordFault::BadLength);
    }
    let mut tag = [0; TAG_BYTES];
    tag.copy_from_slice(bytes);
    Ok(Record::Proof(Proof { tag }))
}

/// A record of a further kind with these bytes.
#[tactic(auto, unfolding(crate::specs::Reading::content_of))]
fn more_of(kind: u8, bytes: &[u8]) -> Result<Record, RecordFault>
    ensures { result ≡ content_of (Kind.More kind) bytes.now }
{
    if bytes.len() > MOST_FRAME {
        return Err(RecordFault::BadLength);
    }
    let mut kept = ArrayVec::new();
    push_all(&mut kept, bytes);
    Ok(Record::More(More { kind, bytes: kept }))
}

/// The record of a kind with these bytes, all of them, or its fault.
#[tactic(auto, unfolding(crate::specs::Reading::content_of))]
fn content_of(kind: Kind, bytes: &[u8]) -> Result<Record, RecordFault>
    ensures { result ≡ content_of kind bytes.now }
{
    match kind {
        Kind::Hello => match hello_of(bytes) {
            Some(hello) => Ok(Record::Hello(hello)),
            None => Err(RecordFault::BadHello),
        },
        Kind::Proof => proof_of(bytes),
        Kind::Frame => match Frame::new(bytes) {
            Some(frame) => Ok(Record::Frame(frame)),
            None => Err(RecordFault::BadLength),
        },
        Kind::Beat => match beat_of(bytes) {
            Ok(beat) => Ok(Record::Beat(beat)),
            Err(fault) => Err(fault),
        },
        Kind::More(kind) => more_of(kind, bytes),
    }
}

/// The record that these bytes are, or their first fault.
#[tactic(auto, unfolding(crate::specs::Faults::reading))]
fn record_of(bytes: &[u8]) -> Result<Record, RecordFault>
    ensures { result ≡ reading bytes.now }
{
    let kind = kind_in(bytes)?;
    content_of(kind, &bytes[5..])
}

/// The record in front of a stream, and how many bytes it takes, or the fault in front; `None` while what stands there
/// is neither a whole record nor at fault.
///
/// The fault is the first of: 120 `BadLength` (a length of 0 or above 4133, as soon as its four bytes are there), 121
/// `BadKind` (of the byte 108 alone), and then 122 `BadHello`, 120 `BadLength` (no length of its kind) or 121 `BadKind` (a
/// beat's flags). Whether a record of its kind may come now is for the caller to judge: of a kind above 3 only behind Hellos
/// of the second version.
pub fn read_record(bytes: &[u8]) -> Option<(Result<Record, RecordFault>, usize)>
    // It waits just where the record isn't whole.
    ensures partial { IsNone result ↔ IsPartial bytes.now }
    ensures there { IfSome result (λ x. x.1 ≤ length bytes.now) }
    ensures end { IfSome result (λ x. x.1 ≡ needed bytes.now) }
    // What is read has this text.
    ensures found { IfSome result (λ x. IfOk x.0 (λ r. IsRecord r × (bytes.now ≡ record_text r ++ drop x.1 bytes.now))) }
    // The record whose text stands in front is read.
    ensures only { (r : Record) (rest : List ℕ) → IsRecord r → bytes.now ≡ record_text r ++ rest → IsSomeAnd result (λ x. (x.0 ≡ Ok r) × (drop x.1 bytes.now ≡ rest)) }
    // Else it is the first fault.
    ensures fault { IfSome result (λ x. IfErr x.0 (λ f. IsFaulty bytes.now f)) }
{
    let end = front_end(bytes)?;
    let read = record_of(&bytes[..end]);
    Some((read, end))
}
