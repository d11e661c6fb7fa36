//! What a record does to a connection.

ghost use Rattle.std.specs.Prelude.{◌≡◌, ℕ, List, ◌-◌, ◌≤◌, length};
ghost use Rattle.peer_codes.specs.declared.kind.Kind.TheVariants as kind_of;
ghost use Rattle.peer_codes.specs.declared.phase.Phase.TheVariants as phases;
ghost use Rattle.peer_codes.specs.Codes.{uncovered};
ghost use Rattle.peer_codes.specs.Steps.{closed, ways_of, only_coded, of_version, no_hello, greeted, on_greeting, on_proof, frame_heard, beat_heard, more_heard, on_more, on_record, staying, stepped, front_step};
ghost use Rattle.peer_codes.specs.Reading.{hello_of};
ghost use Rattle.peer_codes.specs.Outgoings.{later};
ghost use Rattle.peer_codes.specs.Lending.{told_as};

use crate::beat_reading::beat_of;
use crate::connection_fault::ConnectionFault;
use crate::event::Event;
use crate::fault::RecordFault;
use crate::frame::Frame;
use crate::hello::{Hello, Link};
use crate::hello_reading::hello_of;
use crate::hellos::Hellos;
use crate::hmac::is_same;
use crate::key::Key;
use crate::kind::Kind;
use crate::lent::{Lent, lend, owned};
use crate::limits::{LEAST_FRAME, MOST_CONTENT, MOST_RECORD, TAG_BYTES};
use crate::outgoing::Outgoing;
use crate::phase::{Phase, Ways};
use crate::reading::kind_in;
use crate::records::Proof;
use crate::role::Role;
use crate::version::Version;
use arrayvec::ArrayVec;
use std::mem;

/// What a record does to a connection.
#[derive(Drop)]
pub(crate) struct Step {
    pub(crate) phase: Phase,
    /// This side's own proof, where it is to be written from now on.
    pub(crate) proof: Option<Proof>,
    pub(crate) event: Result<Event, ConnectionFault>,
}

/// The fault closes the connection.
fn closed(fault: ConnectionFault) -> Step
    ensures { result ≡ closed fault }
{
    Step {
        phase: Phase::Closed(fault),
        proof: None,
        event: Err(fault),
    }
}

/// Both ways, of the side in the first role.
pub(crate) fn ways_of(key: &Key, own: Role, other: Role, hellos: &Hellos) -> Ways
    ensures { result ≡ ways_of key.now.bytes own other hellos.now }
{
    Ways {
        reading: hellos.way(key, other),
        writing: hellos.way(key, own),
    }
}

/// The Hello of a connection with codes that these bytes are.
fn coded_hello(bytes: &[u8]) -> Option<Hello>
    ensures { result ≡ only_coded (hello_of bytes.now) }
{
    match hello_of(bytes) {
        Some(hello) => match hello.link {
            Link::Plain => None,
            Link::Coded(_) => Some(hello),
        },
        None => None,
    }
}

/// The Hello that came, where this side dialled and its own is of another version none.
fn of_version(own: Option<Hello>, theirs: Option<Hello>) -> Option<Hello>
    ensures { result ≡ of_version own theirs }
{
    let Some(own) = own else {
        return theirs;
    };
    let theirs = theirs?;
    if own.version.is_same(theirs.version) {
        Some(theirs)
    } else {
        None
    }
}

/// No Hello of a connection with codes came, or none of this version.
fn no_hello(own: Option<Hello>) -> Step
    ensures { result ≡ no_hello own }
{
    let fault = ConnectionFault::Record(RecordFault::BadHello);
    match own {
        None => Step {
            phase: Phase::Refused,
            proof: None,
            event: Err(fault),
        },
        Some(_) => closed(fault),
    }
}

/// The other's Hello came, or bytes that are none.
fn greeted(key: &Key, own: Option<Hello>, theirs: Option<Hello>) -> Step
    ensures { result ≡ greeted key.now.bytes own theirs }
{
    let Some(theirs) = theirs else {
        return no_hello(own);
    };
    let Some(own) = own else {
        return Step {
            phase: Phase::Asked(theirs),
            proof: None,
            event: Ok(Event::Greeted(theirs)),
        };
    };
    let hellos = Hellos {
        caller: own,
        called: theirs,
    };
    Step {
        phase: Phase::Proving(
            hellos.proof(key, Role::Called),
            ways_of(key, Role::Caller, Role::Called, &hellos),
        ),
        proof: Some(hellos.proof(key, Role::Caller)),
        event: Ok(Event::Greeted(theirs)),
    }
}

/// A record came before the other's Hello.
fn on_greeting(key: &Key, own: Option<Hello>, kind: Kind, content: &[u8]) -> Step
    ensures { result ≡ on_greeting key.now.bytes own kind content.now }
{
    match kind {
        Kind::Hello => greeted(key, own, of_version(own, coded_hello(content))),
        Kind::Proof => closed(ConnectionFault::UnexpectedRecord),
        Kind::Frame => closed(ConnectionFault::UnexpectedRecord),
        Kind::Beat => closed(ConnectionFault::UnexpectedRecord),
        Kind::More(_) => closed(ConnectionFault::Record(RecordFault::BadKind)),
    }
}

/// The proof that is awaited opens the connection.
fn proved(theirs: Proof, ways: Ways, content: &[u8]) -> Step
    ensures { result ≡ on_proof theirs ways kind_of.Proof content.now }
{
    if content.len() != TAG_BYTES {
        return closed(ConnectionFault::Record(RecordFault::BadLength));
    }
    if !is_same(content, &theirs.tag) {
        return closed(ConnectionFault::WrongProof);
    }
    Step {
        phase: Phase::Open(ways),
        proof: None,
        event: Ok(Event::Opened),
    }
}

/// A record came before the other's proof.
fn on_proof(theirs: Proof, ways: Ways, kind: Kind, content: &[u8]) -> Step
    ensures { result ≡ on_proof theirs ways kind content.now }
{
    match kind {
        Kind::Proof => proved(theirs, ways, content),
        Kind::Hello => closed(ConnectionFault::UnexpectedRecord),
        Kind::Frame => closed(ConnectionFault::UnexpectedRecord),
        Kind::Beat => closed(ConnectionFault::UnexpectedRecord),
        Kind::More(_) => closed(ConnectionFault::Record(RecordFault::BadKind)),
    }
}

/// A frame came, as far as its tag is right: it goes into the buffer.
fn frame_heard(ways: &mut Ways, content: &[u8], frame: &mut Frame) -> Result<Lent, ConnectionFault>
    requires { length content.now ≤ MOST_CONTENT }
    ensures { staying ways.new (told_as result frame.new) ≡ frame_heard ways.old (length content.now - TAG_BYTES) (uncovered ways.old.reading kind_of.Frame content.now) }
{
    match ways.reading.uncover(Kind::Frame, content, &mut frame.bytes) {
        Ok(()) => {
            if frame.bytes.len() < LEAST_FRAME {
                return Err(ConnectionFault::Record(RecordFault::BadLength));
            }
            Ok(Lent::Frame)
        }
        Err(fault) => Err(fault),
    }
}

/// A beat came, as far as its tag is right: its bytes go into the buffer.
fn beat_heard(ways: &mut Ways, content: &[u8], frame: &mut Frame) -> Result<Lent, ConnectionFault>
    requires { length content.now ≤ MOST_CONTENT }
    ensures { staying ways.new (told_as result frame.new) ≡ beat_heard ways.old (length content.now - TAG_BYTES) (uncovered ways.old.reading kind_of.Beat content.now) }
{
    match ways.reading.uncover(Kind::Beat, content, &mut frame.bytes) {
        Ok(()) => match beat_of(frame.bytes.as_slice()) {
            Ok(beat) => Ok(Lent::Beat(beat)),
            Err(fault) => Err(ConnectionFault::Record(fault)),
        },
        Err(fault) => Err(fault),
    }
}

/// A record of a further kind came, as far as its tag is right: its bytes go into the buffer.
fn more_heard(
    ways: &mut Ways,
    kind: u8,
    content: &[u8],
    frame: &mut Frame,
) -> Result<Lent, ConnectionFault>
    requires { length content.now ≤ MOST_CONTENT }
    ensures { staying ways.new (told_as result frame.new) ≡ more_heard ways.old (length content.now - TAG_BYTES) kind (uncovered ways.old.reading (kind_of.More kind) content.now) }
{
    match ways
        .reading
        .uncover(Kind::More(kind), content, &mut frame.bytes)
    {
        Ok(()) => Ok(Lent::More(kind)),
        Err(fault) => Err(fault),
    }
}

/// A record of a further kind came, which may come behind Hellos of the second version alone.
fn on_more(
    ways: &mut Ways,
    kind: u8,
    content: &[u8],
    frame: &mut Frame,
) -> Result<Lent, ConnectionFault>
    requires { length content.now ≤ MOST_CONTENT }
    ensures { staying ways.new (told_as result frame.new) ≡ on_more ways.old.reading.version ways.old kind content.now }
{
    match ways.reading.version() {
        Version::First => Err(ConnectionFault::Record(RecordFault::BadKind)),
        Version::Second => more_heard(ways, kind, content, frame),
    }
}

/// A record came on an open connection, whose bytes go into the buffer.
fn on_record(
    ways: &mut Ways,
    kind: Kind,
    content: &[u8],
    frame: &mut Frame,
) -> Result<Lent, ConnectionFault>
    requires { length content.now ≤ MOST_CONTENT }
    ensures { staying ways.new (told_as result frame.new) ≡ on_record ways.old kind content.now }
{
    match kind {
        Kind::Frame => frame_heard(ways, content, frame),
        Kind::Beat => beat_heard(ways, content, frame),
        Kind::Hello => Err(ConnectionFault::UnexpectedRecord),
        Kind::Proof => Err(ConnectionFault::UnexpectedRecord),
        Kind::More(kind) => on_more(ways, kind, content, frame),
    }
}

/// What stands in front of the bytes that came does to an open connection; a fault closes it.
#[tactic(auto, unfolding(crate::specs::Steps::front_step, crate::specs::Steps::stepped))]
fn open_step(ways: &mut Ways, front: &[u8], frame: &mut Frame) -> Result<Lent, ConnectionFault>
    requires { length front.now ≤ MOST_RECORD }
    ensures { (key : List ℕ) → staying ways.new (told_as result frame.new) ≡ front_step key (phases.Open ways.old) front.now }
{
    match kind_in(front) {
        Ok(kind) => on_record(ways, kind, &front[5..], frame),
        Err(fault) => Err(ConnectionFault::Record(fault)),
    }
}

/// The connection stays open where something came, and a fault closes it.
fn staying(ways: Ways, event: Result<Event, ConnectionFault>) -> Step
    ensures { result ≡ staying ways event }
{
    match event {
        Ok(event) => Step {
            phase: Phase::Open(ways),
            proof: None,
            event: Ok(event),
        },
        Err(fault) => closed(fault),
    }
}

/// A record came on an open connection, which is handed on.
fn on_open(ways: Ways, kind: Kind, content: &[u8]) -> Step
    requires { length content.now ≤ MOST_CONTENT }
    ensures { result ≡ on_record ways kind content.now }
{
    let mut ways = ways;
    let mut frame = Frame {
        bytes: ArrayVec::new(),
    };
    let told = on_record(&mut ways, kind, content, &mut frame);
    staying(ways, owned(told, frame))
}

/// What a record of this kind does.
#[tactic(auto, unfolding(crate::specs::Steps::stepped))]
fn stepped(key: &Key, phase: Phase, kind: Kind, content: &[u8]) -> Step
    requires { length content.now ≤ MOST_CONTENT }
    ensures { result ≡ stepped key.now.bytes phase kind content.now }
{
    match phase {
        Phase::Greeting(own) => on_greeting(key, own, kind, content),
        Phase::Asked(_) => closed(ConnectionFault::UnexpectedRecord),
        Phase::Refused => closed(ConnectionFault::Record(RecordFault::BadHello)),
        Phase::Proving(theirs, ways) => on_proof(theirs, ways, kind, content),
        Phase::Open(ways) => on_open(ways, kind, content),
        Phase::Closed(fault) => closed(fault),
    }
}

/// What stands in front of the bytes that came does.
#[tactic(auto, unfolding(crate::specs::Steps::front_step))]
fn front_step(key: &Key, phase: Phase, front: &[u8]) -> Step
    requires { length front.now ≤ MOST_RECORD }
    ensures { result ≡ front_step key.now.bytes phase front.now }
{
    match kind_in(front) {
        Ok(kind) => stepped(key, phase, kind, &front[5..]),
        Err(fault) => closed(ConnectionFault::Record(fault)),
    }
}

/// What stands in front of the bytes that came does to a connection that isn't open yet.
fn take_step(
    key: &Key,
    phase: &mut Phase,
    out: &mut Outgoing,
    front: &[u8],
) -> Result<Event, ConnectionFault>
    requires { length front.now ≤ MOST_RECORD }
    ensures phase { phase.new ≡ (front_step key.now.bytes phase.old front.now).phase }
    ensures event { result ≡ (front_step key.now.bytes phase.old front.now).event }
    ensures out { out.new ≡ record out.old { proof = later out.old.proof (front_step key.now.bytes phase.old front.now).proof } }
{
    let old = mem::replace(phase, Phase::Closed(ConnectionFault::UnexpectedRecord));
    let Step {
        phase: next,
        proof,
        event,
    } = front_step(key, old, front);
    *phase = next;
    out.say_proof(proof);
    event
}

/// The same, where the bytes of what came go into the buffer.
fn lend_step(
    key: &Key,
    phase: &mut Phase,
    out: &mut Outgoing,
    front: &[u8],
    frame: &mut Frame,
) -> Result<Lent, ConnectionFault>
    requires { length front.now ≤ MOST_RECORD }
    ensures phase { phase.new ≡ (front_step key.now.bytes phase.old front.now).phase }
    ensures event { told_as result frame.new ≡ (front_step key.now.bytes phase.old front.now).event }
    ensures out { out.new ≡ record out.old { proof = later out.old.proof (front_step key.now.bytes phase.old front.now).proof } }
{
    lend(take_step(key, phase, out, front), frame)
}

/// What stands in front of the bytes that came does to a connection; this side's own proof is to be written, where it
/// says so. The bytes of a frame, a beat and a record of a further kind go into the buffer; on an open connection nothing
/// as long is made.
pub(crate) fn take_front(
    key: &Key,
    phase: &mut Phase,
    out: &mut Outgoing,
    front: &[u8],
    frame: &mut Frame,
) -> Result<Lent, ConnectionFault>
    requires { length front.now ≤ MOST_RECORD }
    ensures phase { phase.new ≡ (front_step key.now.bytes phase.old front.now).phase }
    ensures event { told_as result frame.new ≡ (front_step key.now.bytes phase.old front.now).event }
    ensures out { out.new ≡ record out.old { proof = later out.old.proof (front_step key.now.bytes phase.old front.now).proof } }
{
    let told = match phase {
        Phase::Open(ways) => open_step(ways, front, frame),
        _ => return lend_step(key, phase, out, front, frame),
    };
    if let Err(fault) = told {
        *phase = Phase::Closed(fault);
    }
    told
}
