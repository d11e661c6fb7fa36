//! Which Hello is taken.

ghost use Rattle.std.specs.Prelude.{◌≡◌};
ghost use Rattle.std.specs.Str.{bytes_eq};
ghost use Rattle.node_links.specs.Judging.{is_coded, is_awaited, wrong_number, is_other, met_at, judged_node, heads_of, judged_match, judged_known, judged};
ghost use Rattle.node_links.specs.Knowing.{is_replaced};

use crate::own::{Known, Met, Own};
use crate::peer_fault::{Digests, Mismatch, Numbers, PeerFault, Whose, WrongNumber};
use byteorder::{BigEndian, ByteOrder};
use peer_codes::{Ends, Hello, Life, Link, RecordFault};

/// Whether these are the same bytes.
pub(crate) fn is_same(bytes: &[u8], others: &[u8]) -> bool
    ensures { result ≡ bytes_eq bytes.now others.now }
{
    bytes == others
}

/// Whether a Hello is one of a connection with codes.
fn is_coded(link: Link) -> bool
    ensures { result ≡ is_coded link }
{
    match link {
        Link::Plain => false,
        Link::Coded(_) => true,
    }
}

/// Whether the node that was to speak speaks to this one: the one that was dialled, or one of a greater number, since of
/// two nodes the one with the greater number dials.
fn is_awaited(number: u8, dialled: Option<u8>, ends: Ends) -> bool
    ensures { result ≡ is_awaited number dialled ends }
{
    match dialled {
        Some(peer) => ends.to == number && ends.from == peer,
        None => ends.to == number && number < ends.from,
    }
}

/// Which number is wrong where it isn't that node, or not to this one. Of a node that was dialled its own number comes first,
/// since it tells where the dial led to; of one that dialled the number that it called.
fn wrong_number(number: u8, dialled: Option<u8>, ends: Ends) -> WrongNumber
    ensures { result ≡ wrong_number number dialled ends }
{
    let called = WrongNumber::Called(Numbers {
        said: ends.to,
        expected: number,
    });
    match dialled {
        Some(peer) if ends.from == peer => called,
        Some(peer) => WrongNumber::Speaker(Numbers {
            said: ends.from,
            expected: peer,
        }),
        None if ends.to != number => called,
        None => WrongNumber::Caller(Numbers {
            said: ends.from,
            expected: number,
        }),
    }
}

/// Whether another life is kept than this one.
fn is_other(kept: Option<Life>, life: Life) -> bool
    ensures { result ≡ is_other kept life }
{
    match kept {
        Some(kept) => !is_same(&kept.bytes, &life.bytes),
        None => false,
    }
}

/// Whether another life is known than this one, or two are.
fn is_replaced(lives: Known, life: Life) -> bool
    ensures { result ≡ is_replaced lives life }
{
    match lives {
        Known::Nothing => false,
        Known::One(first) => !is_same(&first.bytes, &life.bytes),
        Known::Two => true,
    }
}

/// What is known of a node; nothing where it has no place here.
fn met_at(met: &[Met], number: u8) -> Met
    ensures { result ≡ met_at met.now number }
{
    match met.get(number as usize) {
        Some(known) => *known,
        None => Met {
            lives: Known::Nothing,
            is_here: false,
        },
    }
}

/// Judges the Hello of a node of this match of which this is known.
fn judge_node(own: &Own, known: Met, hello: &Hello) -> Result<(), PeerFault>
    ensures { result ≡ judged_node own.now known hello.now }
{
    if known.is_here {
        return Err(PeerFault::AlreadyHere);
    }
    if is_other(hello.kept, own.life) {
        return Err(PeerFault::StoreReplaced(Whose::Own));
    }
    if is_replaced(known.lives, hello.life) {
        return Err(PeerFault::StoreReplaced(Whose::Other));
    }
    Ok(())
}

/// The heads of the digests of the own match and of that which a Hello says.
fn heads_of(own: &Own, hello: &Hello) -> Digests
    ensures { result ≡ heads_of own.now hello.now }
{
    Digests {
        here: BigEndian::read_u32(&own.digest.bytes),
        there: BigEndian::read_u32(&hello.digest.bytes),
    }
}

/// Judges what a Hello says of the match and of who speaks to whom, where this node dialled that one, or else was dialled.
///
/// The fault is 123 `OtherMatch`, by the first of: the digest, the count of nodes, the numbers.
pub(crate) fn judge_match(own: &Own, dialled: Option<u8>, hello: &Hello) -> Result<(), PeerFault>
    ensures { result ≡ judged_match own.now dialled hello.now }
{
    if !is_same(&hello.digest.bytes, &own.digest.bytes) {
        return Err(PeerFault::OtherMatch(Mismatch::Digest(heads_of(own, hello))));
    }
    if hello.ends.nodes != own.nodes {
        return Err(PeerFault::OtherMatch(Mismatch::Nodes(Numbers {
            said: hello.ends.nodes,
            expected: own.nodes,
        })));
    }
    if !is_awaited(own.number, dialled, hello.ends) {
        return Err(PeerFault::OtherMatch(Mismatch::Number(wrong_number(
            own.number, dialled, hello.ends,
        ))));
    }
    Ok(())
}

/// Judges the Hello of a node of this match; of each node stands in its place what is known of it.
///
/// The fault is the first of: 128 `AlreadyHere`, 127 `StoreReplaced` (this node's own store, then the other's).
pub(crate) fn judge_known(own: &Own, met: &[Met], hello: &Hello) -> Result<(), PeerFault>
    ensures { result ≡ judged_known own.now met.now hello.now }
{
    judge_node(own, met_at(met, hello.ends.from), hello)
}

/// Judges the Hello of a connection without codes, where this node dialled that one, or else was dialled; of each node
/// stands in its place what is known of it.
///
/// The fault is the first of: 122 `BadHello` (of a connection with codes), 123 `OtherMatch` (the digest, the count of nodes,
/// then the numbers), 128 `AlreadyHere`, 127 `StoreReplaced` (this node's own store, then the other's).
pub fn judge(own: &Own, dialled: Option<u8>, met: &[Met], hello: &Hello) -> Result<(), PeerFault>
    ensures { result ≡ judged own.now dialled met.now hello.now }
{
    if is_coded(hello.link) {
        return Err(PeerFault::Record(RecordFault::BadHello));
    }
    match judge_match(own, dialled, hello) {
        Ok(()) => judge_known(own, met, hello),
        Err(fault) => Err(fault),
    }
}
