//! Hellos, read from the bytes of a record.

ghost use Rattle.std.specs.Prelude.{◌≡◌, ◌<◌, ◌≤◌, length, Some};
ghost use Rattle.paxos_wire.specs.Reading.{Gives};
ghost use Rattle.peer_codes.specs.Reading.{ends_at, life_at, kept_at, promised_at, greeting_at, lives_at, link_at, hello_of};

use crate::fields::{are_zeros, read_array, read_byte, read_number};
use crate::hello::{Ends, Hello, Life, Link, MatchDigest, Nonce};
use crate::limits::{BALLOT_BYTES, DIGEST_BYTES, NODES};
use crate::version::Version;
use paxos_wire::{Ballot, read_ballot};

/// Who speaks to whom, and the bytes after it.
#[tactic(auto, unfolding(crate::specs::Reading::ends_at))]
fn read_ends(bytes: &[u8]) -> Option<(Ends, &[u8])>
    ensures { Gives (λ x. (x.0, x.1.now)) result (ends_at bytes.now) }
{
    let (from, rest) = read_byte(bytes)?;
    let (to, rest) = read_byte(rest)?;
    let (nodes, rest) = read_byte(rest)?;
    if nodes <= NODES && from < nodes && to < nodes && from != to {
        Some((Ends { from, to, nodes }, rest))
    } else {
        None
    }
}

/// A life, and the bytes after it.
#[tactic(auto, unfolding(crate::specs::Reading::life_at))]
fn read_life(bytes: &[u8]) -> Option<(Life, &[u8])>
    ensures { Gives (λ x. (x.0, x.1.now)) result (life_at bytes.now) }
{
    let (bytes, rest) = read_array(bytes)?;
    if are_zeros(&bytes) {
        None
    } else {
        Some((Life { bytes }, rest))
    }
}

/// A life or none, and the bytes after it.
#[tactic(auto, unfolding(crate::specs::Reading::kept_at))]
fn read_kept(bytes: &[u8]) -> Option<(Option<Life>, &[u8])>
    ensures { Gives (λ x. (x.0, x.1.now)) result (kept_at bytes.now) }
{
    let (bytes, rest) = read_array(bytes)?;
    if are_zeros(&bytes) {
        Some((None, rest))
    } else {
        Some((Some(Life { bytes }), rest))
    }
}

/// A ballot or none, and the bytes after it.
#[tactic(auto, unfolding(crate::specs::Reading::promised_at))]
fn read_promised(bytes: &[u8]) -> Option<(Option<Ballot>, &[u8])>
    ensures { Gives (λ x. (x.0, x.1.now)) result (promised_at bytes.now) }
{
    let (front, rest) = read_array::<BALLOT_BYTES>(bytes)?;
    if are_zeros(&front) {
        return Some((None, rest));
    }
    match read_ballot(paxos_wire::Version::New, bytes) {
        Some((ballot, rest)) => Some((Some(ballot), rest)),
        None => None,
    }
}

/// What stands in front of a Hello: its version, the byte of its kind of connection, and who speaks to whom.
#[tactic(auto, unfolding(crate::specs::Reading::greeting_at))]
fn read_greeting(bytes: &[u8]) -> Option<(Version, u8, Ends, &[u8])>
    ensures { Gives (λ x. (x.0, x.1, x.2, x.3.now)) result (greeting_at bytes.now) }
{
    let (magic, rest) = read_number(bytes)?;
    let (link, rest) = read_byte(rest)?;
    let (ends, rest) = read_ends(rest)?;
    let version = Version::of_magic(magic)?;
    Some((version, link, ends, rest))
}

/// The match and both lives, and the bytes after them.
#[tactic(auto, unfolding(crate::specs::Reading::lives_at))]
fn read_lives(bytes: &[u8]) -> Option<([u8; DIGEST_BYTES], Life, Option<Life>, &[u8])>
    ensures { Gives (λ x. (x.0, x.1, x.2, x.3.now)) result (lives_at bytes.now) }
{
    let (digest, rest) = read_array(bytes)?;
    let (life, rest) = read_life(rest)?;
    let (kept, rest) = read_kept(rest)?;
    Some((digest, life, kept, rest))
}

/// The kind of connection that a byte tells, with the nonce where it has codes, and the bytes after it.
#[tactic(auto, unfolding(crate::specs::Reading::link_at))]
fn read_link(byte: u8, bytes: &[u8]) -> Option<(Link, &[u8])>
    ensures { Gives (λ x. (x.0, x.1.now)) result (link_at byte bytes.now) }
{
    match byte {
        0 => Some((Link::Plain, bytes)),
        1 => {
            let (bytes, rest) = read_array(bytes)?;
            Some((Link::Coded(Nonce { bytes }), rest))
        }
        _ => None,
    }
}

/// The Hello with this text, all of the bytes.
#[tactic(auto, unfolding(crate::specs::Reading::hello_of))]
pub(crate) fn hello_of(bytes: &[u8]) -> Option<Hello>
    ensures { result ≡ hello_of bytes.now }
{
    let (version, byte, ends, rest) = read_greeting(bytes)?;
    let (digest, life, kept, rest) = read_lives(rest)?;
    let (promised, rest) = read_promised(rest)?;
    let (link, rest) = read_link(byte, rest)?;
    if rest.is_empty() {
        Some(Hello {
            version,
            ends,
            digest: MatchDigest { bytes: digest },
            life,
            kept,
            promised,
            link,
        })
    } else {
        None
    }
}
