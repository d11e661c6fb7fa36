//! What an event of a channel with codes does to a connection, and how the Hello that came is judged.

ghost use Rattle.std.specs.Prelude.{◌≡◌};
ghost use Rattle.peer_codes.specs.declared.frame.Frame.{Frame};
ghost use Rattle.peer_codes.specs.Lending.{event_as, told_as};
ghost use Rattle.node_links.specs.Coding.{step_as, peer_fault_of, closed, on_greeting, on_matched, on_further, on_open, on_event, coded_step, matched, taken, settled_stage};

use crate::arrived::Arrived;
use crate::further::{Further, read_behind};
use crate::judging::{judge_known, judge_match};
use crate::own::{Met, Own};
use crate::peer_fault::PeerFault;
use crate::stage::Stage;
use peer_codes::{ConnectionFault, Frame, Hello, Lent, RecordFault};

/// What an event does to a connection, whose bytes a buffer has.
#[derive(Clone, Copy)]
pub(crate) struct LentStep {
    pub(crate) stage: Stage,
    pub(crate) told: Result<Arrived, PeerFault>,
}

/// The fault of a channel as one of a connection.
fn peer_fault_of(fault: ConnectionFault) -> PeerFault
    ensures { result ≡ peer_fault_of fault }
{
    match fault {
        ConnectionFault::Record(fault) => PeerFault::Record(fault),
        ConnectionFault::WrongProof => PeerFault::WrongProof,
        ConnectionFault::WrongTag => PeerFault::WrongTag,
        ConnectionFault::UnexpectedRecord => PeerFault::UnexpectedRecord,
    }
}

/// The fault closes the connection.
fn closed(fault: PeerFault) -> LentStep
    ensures { (frame : Frame) → step_as result frame ≡ closed fault }
{
    LentStep {
        stage: Stage::Closed(fault),
        told: Err(fault),
    }
}

/// Something came before the other's Hello was there.
fn on_greeting(lent: Lent) -> LentStep
    ensures { (frame : Frame) → step_as result frame ≡ on_greeting (event_as lent frame) }
{
    match lent {
        Lent::Greeted(hello) => LentStep {
            stage: Stage::Asked(hello),
            told: Ok(Arrived::Hello(hello)),
        },
        Lent::Opened => closed(PeerFault::UnexpectedRecord),
        Lent::Frame => closed(PeerFault::UnexpectedRecord),
        Lent::Beat(_) => closed(PeerFault::UnexpectedRecord),
        Lent::More(_) => closed(PeerFault::UnexpectedRecord),
    }
}

/// Something came before the other's proof was there.
fn on_matched(hello: Hello, lent: Lent) -> LentStep
    ensures { (frame : Frame) → step_as result frame ≡ on_matched hello (event_as lent frame) }
{
    match lent {
        Lent::Opened => LentStep {
            stage: Stage::Proved(hello),
            told: Ok(Arrived::Proved(hello)),
        },
        Lent::Greeted(_) => closed(PeerFault::UnexpectedRecord),
        Lent::Frame => closed(PeerFault::UnexpectedRecord),
        Lent::Beat(_) => closed(PeerFault::UnexpectedRecord),
        Lent::More(_) => closed(PeerFault::UnexpectedRecord),
    }
}

/// A record of a further kind came on an open connection, and tells this, or closes it.
fn on_further(hello: Hello, read: Result<Further, RecordFault>) -> LentStep
    ensures { (frame : Frame) → step_as result frame ≡ on_further hello read }
{
    match read {
        Ok(further) => LentStep {
            stage: Stage::Open(hello),
            told: Ok(Arrived::Further(further)),
        },
        Err(fault) => closed(PeerFault::Record(fault)),
    }
}

/// Something came on an open connection, of which the buffer has the bytes.
fn on_open(hello: Hello, lent: Lent, frame: &Frame) -> LentStep
    ensures { step_as result frame.now ≡ on_open hello (event_as lent frame.now) }
{
    match lent {
        Lent::Frame => LentStep {
            stage: Stage::Open(hello),
            told: Ok(Arrived::Frame),
        },
        Lent::Beat(beat) => LentStep {
            stage: Stage::Open(hello),
            told: Ok(Arrived::Beat(beat)),
        },
        Lent::Greeted(_) => closed(PeerFault::UnexpectedRecord),
        Lent::Opened => closed(PeerFault::UnexpectedRecord),
        Lent::More(kind) => {
            let read = read_behind(&hello, kind, frame.bytes.as_slice());
            on_further(hello, read)
        }
    }
}

/// What an event does, of which the buffer has the bytes.
fn on_event(stage: Stage, lent: Lent, frame: &Frame) -> LentStep
    ensures { step_as result frame.now ≡ on_event stage (event_as lent frame.now) }
{
    match stage {
        Stage::Greeting => on_greeting(lent),
        Stage::Matched(hello) => on_matched(hello, lent),
        Stage::Open(hello) => on_open(hello, lent, frame),
        Stage::Asked(_) => closed(PeerFault::UnexpectedRecord),
        Stage::Proved(_) => closed(PeerFault::UnexpectedRecord),
        Stage::Closed(fault) => closed(fault),
    }
}

/// What the event that came does, of which the buffer has the bytes, or the fault of what came.
pub(crate) fn coded_step(
    stage: Stage,
    came: Result<Lent, ConnectionFault>,
    frame: &Frame,
) -> LentStep
    ensures { step_as result frame.now ≡ coded_step stage (told_as came frame.now) }
{
    match came {
        Ok(lent) => on_event(stage, lent, frame),
        Err(fault) => closed(peer_fault_of(fault)),
    }
}

/// The other's Hello is one of this match, or isn't taken.
fn matched(verdict: Result<(), PeerFault>, hello: Hello) -> Stage
    ensures { result ≡ matched verdict hello }
{
    match verdict {
        Ok(()) => Stage::Matched(hello),
        Err(fault) => Stage::Closed(fault),
    }
}

/// The other's Hello is taken, or isn't.
fn taken(verdict: Result<(), PeerFault>, hello: Hello) -> Stage
    ensures { result ≡ taken verdict hello }
{
    match verdict {
        Ok(()) => Stage::Open(hello),
        Err(fault) => Stage::Closed(fault),
    }
}

/// How far a connection is once what came is judged, where something waits for that.
pub(crate) fn settled_stage(own: &Own, dialled: Option<u8>, met: &[Met], stage: Stage) -> Stage
    ensures { result ≡ settled_stage own.now dialled met.now stage }
{
    match stage {
        Stage::Asked(hello) => matched(judge_match(own, dialled, &hello), hello),
        Stage::Proved(hello) => taken(judge_known(own, met, &hello), hello),
        Stage::Greeting => Stage::Greeting,
        Stage::Matched(hello) => Stage::Matched(hello),
        Stage::Open(hello) => Stage::Open(hello),
        Stage::Closed(fault) => Stage::Closed(fault),
    }
}
