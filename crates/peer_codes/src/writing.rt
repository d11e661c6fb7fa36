//! The one text of each record.

ghost use Rattle.std.specs.Prelude.{◌≡◌, ◌+◌, ◌≤◌, ◌++◌, [], ◌∷◌, length, IfSome};
ghost use Rattle.arrayvec.specs.ArrayVec.{array_vec_len};
ghost use Rattle.byteorder.specs.Endian.{big_bytes};
ghost use Rattle.peer_codes.specs.Versions.{magic_of};
ghost use Rattle.peer_codes.specs.Kinds.{kind_byte};
ghost use Rattle.peer_codes.specs.Fits.{IsLink, HasWidths, IsBeat, IsHeld, CanBeSaid, IsRecord};
ghost use Rattle.peer_codes.specs.Spelling.{link_byte, ends_text, kept_text, promised_text, nonce_text, hello_text, flags_byte, beat_text, enveloped, kind, body, record_text};

use crate::beat::Beat;
use crate::hello::{Hello, Life, Link};
use crate::kind::Kind;
use crate::limits::{
    BALLOT_BYTES, BEAT_BYTES, CODED_HELLO_BYTES, DIGEST_BYTES, LIFE_BYTES, MOST_FRAME, MOST_LENGTH,
    MOST_RECORD,
};
use crate::records::Record;
use arrayvec::ArrayVec;
use byteorder::{BigEndian, ByteOrder};
use paxos_wire::{Ballot, ballot_bytes, push_all};

/// The four bytes of a number.
fn number_bytes(number: u32) -> [u8; 4]
    ensures { result ≡ big_bytes 4 number }
{
    let mut bytes = [0; 4];
    BigEndian::write_u32(&mut bytes, number);
    bytes
}

/// The two bytes of a number.
fn short_bytes(number: u16) -> [u8; 2]
    ensures { result ≡ big_bytes 2 number }
{
    let mut bytes = [0; 2];
    BigEndian::write_u16(&mut bytes, number);
    bytes
}

/// The byte of a kind of connection.
fn link_byte(link: &Link) -> u8
    ensures { result ≡ link_byte link.now }
{
    match link {
        Link::Plain => 0,
        Link::Coded(_) => 1,
    }
}

/// The bytes of a ballot, or zeros.
fn promised_bytes(promised: &Option<Ballot>) -> [u8; BALLOT_BYTES]
    ensures { result ≡ promised_text promised.now }
{
    match promised {
        None => [0; BALLOT_BYTES],
        Some(ballot) => ballot_bytes(*ballot),
    }
}

/// Puts what stands in front of a Hello behind the last byte.
fn push_greeting(out: &mut ArrayVec<u8, CODED_HELLO_BYTES>, hello: &Hello)
    requires { array_vec_len out.old + 8 ≤ CODED_HELLO_BYTES }
    ensures items { out.new.items ≡ out.old.items ++ (big_bytes 4 (magic_of hello.now.version) ++ (link_byte hello.now.link ∷ ends_text hello.now.ends)) }
    ensures len { array_vec_len out.new ≡ array_vec_len out.old + 8 }
{
    push_all(out, &number_bytes(hello.version.magic()));
    out.push(link_byte(&hello.link));
    out.push(hello.ends.from);
    out.push(hello.ends.to);
    out.push(hello.ends.nodes);
}

/// Puts a life behind the last byte, or zeros.
fn push_kept(out: &mut ArrayVec<u8, CODED_HELLO_BYTES>, kept: &Option<Life>)
    requires { array_vec_len out.old + 16 ≤ CODED_HELLO_BYTES }
    ensures items { out.new.items ≡ out.old.items ++ kept_text kept.now }
    ensures len { array_vec_len out.new ≡ array_vec_len out.old + 16 }
    ensures width { IfSome kept.now (λ life. length life.bytes ≡ LIFE_BYTES) }
{
    match kept {
        None => push_all(out, &[0; LIFE_BYTES]),
        Some(life) => push_all(out, &life.bytes),
    }
}

/// Puts the match and both lives behind the last byte.
fn push_lives(out: &mut ArrayVec<u8, CODED_HELLO_BYTES>, hello: &Hello)
    requires { array_vec_len out.old + 64 ≤ CODED_HELLO_BYTES }
    ensures items { out.new.items ≡ out.old.items ++ (hello.now.digest.bytes ++ (hello.now.life.bytes ++ kept_text hello.now.kept)) }
    ensures len { array_vec_len out.new ≡ array_vec_len out.old + 64 }
    ensures digest { length hello.now.digest.bytes ≡ DIGEST_BYTES }
    ensures life { length hello.now.life.bytes ≡ LIFE_BYTES }
    ensures kept { IfSome hello.now.kept (λ life. length life.bytes ≡ LIFE_BYTES) }
{
    push_all(out, &hello.digest.bytes);
    push_all(out, &hello.life.bytes);
    push_kept(out, &hello.kept);
}

/// Puts the nonce behind the last byte, where the connection has codes.
fn push_nonce(out: &mut ArrayVec<u8, CODED_HELLO_BYTES>, link: &Link)
    requires { array_vec_len out.old + 32 ≤ CODED_HELLO_BYTES }
    ensures items { out.new.items ≡ out.old.items ++ nonce_text link.now }
    ensures width { IsLink link.now }
{
    match link {
        Link::Plain => (),
        Link::Coded(nonce) => push_all(out, &nonce.bytes),
    }
}

/// The bytes of a Hello: 77, and 109 where the connection has codes.
pub(crate) fn hello_bytes(hello: &Hello) -> ArrayVec<u8, CODED_HELLO_BYTES>
    ensures text { result.items ≡ hello_text hello.now }
    ensures widths { HasWidths hello.now }
{
    let mut out = ArrayVec::new();
    push_greeting(&mut out, hello);
    push_lives(&mut out, hello);
    push_all(&mut out, &promised_bytes(&hello.promised));
    push_nonce(&mut out, &hello.link);
    out
}

/// The byte of a beat's flags.
fn flags_byte(campaigns: bool, over: bool) -> u8
    ensures { result ≡ flags_byte campaigns over }
{
    match (campaigns, over) {
        (false, false) => 0,
        (true, false) => 1,
        (false, true) => 2,
        (true, true) => 3,
    }
}

/// The bytes of a beat.
pub(crate) fn beat_bytes(beat: &Beat) -> ArrayVec<u8, BEAT_BYTES>
    ensures text { result.items ≡ beat_text beat.now }
    ensures beat { IsBeat beat.now }
{
    let mut out = ArrayVec::new();
    push_all(&mut out, &number_bytes(beat.number));
    push_all(&mut out, &number_bytes(beat.got));
    push_all(&mut out, &number_bytes(beat.front));
    out.push(flags_byte(beat.campaigns, beat.over));
    push_all(&mut out, &short_bytes(beat.seats));
    out
}

/// Where what stands behind the kind of a record begins.
pub(crate) const CONTENT_AT: usize = 5;

/// Writes what stands in front of so many bytes behind a kind, in place of what stood there: a length that counts both,
/// and the kind.
pub(crate) fn begin_envelope(out: &mut ArrayVec<u8, MOST_RECORD>, kind: Kind, count: usize)
    requires { count + 1 ≤ MOST_LENGTH }
    ensures items { out.new.items ≡ big_bytes 4 (count + 1) ++ (kind_byte kind ∷ []) }
    ensures len { array_vec_len out.new ≡ CONTENT_AT }
{
    out.clear();
    push_all(out, &number_bytes((count + 1) as u32));
    out.push(kind.byte());
}

/// A kind and bytes behind it, with a length in front that counts both.
#[tactic(auto, unfolding(crate::specs::Spelling::enveloped))]
pub(crate) fn enveloped(kind: Kind, content: &[u8]) -> ArrayVec<u8, MOST_RECORD>
    requires { length content.now + 1 ≤ MOST_LENGTH }
    ensures { result.items ≡ enveloped kind content.now }
{
    let mut out = ArrayVec::new();
    begin_envelope(&mut out, kind, content.len());
    push_all(&mut out, content);
    out
}

/// What stands in a record behind its kind.
pub(crate) fn body_bytes(said: &Record) -> ArrayVec<u8, MOST_FRAME>
    ensures text { result.items ≡ body said.now }
    ensures held { IsHeld said.now }
{
    let mut out = ArrayVec::new();
    match said {
        Record::Hello(hello) => push_all(&mut out, hello_bytes(hello).as_slice()),
        Record::Proof(proof) => push_all(&mut out, &proof.tag),
        Record::Frame(frame) => push_all(&mut out, frame.bytes.as_slice()),
        Record::Beat(beat) => push_all(&mut out, beat_bytes(beat).as_slice()),
        Record::More(more) => push_all(&mut out, more.bytes.as_slice()),
    }
    out
}

/// The kind of a record.
fn kind_of(said: &Record) -> Kind
    ensures { result ≡ kind said.now }
{
    match said {
        Record::Hello(_) => Kind::Hello,
        Record::Proof(_) => Kind::Proof,
        Record::Frame(_) => Kind::Frame,
        Record::Beat(_) => Kind::Beat,
        Record::More(more) => Kind::More(more.kind),
    }
}

/// The bytes of a record, without a tag: at most 4105.
#[tactic(auto, using(crate::proofs::RecordLaws::is_record))]
pub fn record_bytes(said: &Record) -> ArrayVec<u8, MOST_RECORD>
    ensures text { result.items ≡ record_text said.now }
    // Where its numbers can be said it is a record of streams: the bytes read back as it.
    ensures fits { CanBeSaid said.now → IsRecord said.now }
{
    let body = body_bytes(said);
    enveloped(kind_of(said), body.as_slice())
}
