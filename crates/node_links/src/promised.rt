//! The ballot that a node is known to have promised: which frames show it, and the record of a further kind that tells it.

ghost use Rattle.std.specs.Prelude.{◌≡◌, ◌≤◌, ◌+◌, length};
ghost use Rattle.node_links.specs.declared.limits.TheConstants.{PROMISED_BYTES as ALL};
ghost use Rattle.node_links.specs.Promising.{ballot_at, promise_in, promises_less, higher, promised_of, promised_text, promised_more};

use crate::limits::{PROMISED, PROMISED_BYTES};
use crate::owed::{ACCEPTED, PROMISE, REFUSE, has_kind};
use crate::settings::number_bytes;
use arrayvec::ArrayVec;
use byteorder::{BigEndian, ByteOrder};
use paxos_wire::{Ballot, push_all};
use peer_codes::{More, RecordFault};

/// Where the ballot stands that a Promise or an Accepted is of,
const BALLOT_AT: usize = 6;

/// and the one that a Refuse names as promised, behind its ballot and its slot.
const REFUSED_BY_AT: usize = 15;

/// The ballot from a place on.
fn ballot_at(bytes: &[u8], at: usize) -> Ballot
    requires { at + ALL ≤ length bytes.now }
    ensures { result ≡ ballot_at bytes.now at }
{
    Ballot {
        round: BigEndian::read_u32(&bytes[at..]),
        node: bytes[at + 4],
    }
}

/// The ballot that a frame shows as promised by who says it: a Promise and an Accepted their own, a Refuse the one for which it
/// refuses. Prepares, Accepts and all others show none: who asks needn't have promised.
pub fn promise_in(frame: &[u8]) -> Option<Ballot>
    ensures { result ≡ promise_in frame.now }
{
    if has_kind(frame, PROMISE) || has_kind(frame, ACCEPTED) {
        return Some(ballot_at(frame, BALLOT_AT));
    }
    if has_kind(frame, REFUSE) && frame.len() >= REFUSED_BY_AT + PROMISED_BYTES {
        Some(ballot_at(frame, REFUSED_BY_AT))
    } else {
        None
    }
}

/// Whether a node that promised this promises less than it is known to have promised.
pub fn promises_less(promised: Option<Ballot>, known: Option<Ballot>) -> bool
    ensures { result ≡ promises_less promised known }
{
    match (promised, known) {
        (_, None) => false,
        (None, Some(_)) => true,
        (Some(promised), Some(known)) => promised.is_below(known),
    }
}

/// The greater of both ballots that were promised.
pub fn higher(one: Option<Ballot>, other: Option<Ballot>) -> Option<Ballot>
    ensures { result ≡ higher one other }
{
    if promises_less(one, other) {
        other
    } else {
        one
    }
}

/// The ballot with these bytes, all of them; 120 `BadLength` where there are more or fewer.
pub(crate) fn promised_of(bytes: &[u8]) -> Result<Ballot, RecordFault>
    ensures { result ≡ promised_of bytes.now }
{
    if bytes.len() != PROMISED_BYTES {
        return Err(RecordFault::BadLength);
    }
    Ok(ballot_at(bytes, 0))
}

/// The bytes of a ballot.
fn promised_text(ballot: Ballot) -> ArrayVec<u8, PROMISED_BYTES>
    ensures { result.items ≡ promised_text ballot }
{
    let mut text = ArrayVec::new();
    push_all(&mut text, &number_bytes(ballot.round));
    push_all(&mut text, &[ballot.node]);
    text
}

/// The record that tells a ballot.
pub(crate) fn promised_more(ballot: Ballot) -> More
    ensures { result ≡ promised_more ballot }
{
    let text = promised_text(ballot);
    match More::new(PROMISED, text.as_slice()) {
        Some(more) => more,
        None => unreachable!(),
    }
}
