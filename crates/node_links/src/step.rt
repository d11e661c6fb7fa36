//! What a record does to a connection.

ghost use Rattle.std.specs.Prelude.{◌≡◌};
ghost use Rattle.node_links.specs.Steps.{closed, greeted, is_version, on_greeting, on_further, on_open, stepped, step_by, settled};

use crate::further::{Further, read_behind};
use crate::heard::Heard;
use crate::judging::judge;
use crate::own::{Met, Own};
use crate::peer_fault::PeerFault;
use crate::phase::Phase;
use peer_codes::{Hello, Record, RecordFault, Version};

/// What a record does to a connection.
#[derive(Drop)]
pub(crate) struct Step {
    pub(crate) phase: Phase,
    pub(crate) heard: Result<Heard, PeerFault>,
}

/// The fault closes the connection.
fn closed(fault: PeerFault) -> Step
    ensures { result ≡ closed fault }
{
    Step {
        phase: Phase::Closed(fault),
        heard: Err(fault),
    }
}

/// Whether a Hello of this version may come, where this side dialled in that one.
fn is_version(mine: Option<Version>, version: Version) -> bool
    ensures { result ≡ is_version mine version }
{
    match mine {
        None => true,
        Some(Version::First) => match version {
            Version::First => true,
            Version::Second => false,
        },
        Some(Version::Second) => match version {
            Version::First => false,
            Version::Second => true,
        },
    }
}

/// The other's Hello came: it is judged next, unless it is of another version than that in which this side dialled.
fn greeted(mine: Option<Version>, hello: Hello) -> Step
    ensures { result ≡ greeted mine hello }
{
    if !is_version(mine, hello.version) {
        return closed(PeerFault::Record(RecordFault::BadHello));
    }
    Step {
        phase: Phase::Asked(hello),
        heard: Ok(Heard::Hello(hello)),
    }
}

/// A record came before the other's Hello.
fn on_greeting(mine: Option<Version>, said: Record) -> Step
    ensures { result ≡ on_greeting mine said }
{
    match said {
        Record::Hello(hello) => greeted(mine, hello),
        Record::Proof(_) => closed(PeerFault::UnexpectedRecord),
        Record::Frame(_) => closed(PeerFault::UnexpectedRecord),
        Record::Beat(_) => closed(PeerFault::UnexpectedRecord),
        Record::More(_) => closed(PeerFault::Record(RecordFault::BadKind)),
    }
}

/// A record of a further kind came on an open connection, and tells this, or closes it.
fn on_further(other: Hello, read: Result<Further, RecordFault>) -> Step
    ensures { result ≡ on_further other read }
{
    match read {
        Ok(further) => Step {
            phase: Phase::Open(other),
            heard: Ok(Heard::Further(further)),
        },
        Err(fault) => closed(PeerFault::Record(fault)),
    }
}

/// A record came on an open connection.
fn on_open(other: Hello, said: Record) -> Step
    ensures { result ≡ on_open other said }
{
    match said {
        Record::Frame(frame) => Step {
            phase: Phase::Open(other),
            heard: Ok(Heard::Frame(frame)),
        },
        Record::Beat(beat) => Step {
            phase: Phase::Open(other),
            heard: Ok(Heard::Beat(beat)),
        },
        Record::Hello(_) => closed(PeerFault::UnexpectedRecord),
        Record::Proof(_) => closed(PeerFault::UnexpectedRecord),
        Record::More(more) => {
            let read = read_behind(&other, more.kind, more.bytes.as_slice());
            on_further(other, read)
        }
    }
}

/// What a record does.
fn stepped(phase: Phase, said: Record) -> Step
    ensures { result ≡ stepped phase said }
{
    match phase {
        Phase::Greeting(mine) => on_greeting(mine, said),
        Phase::Asked(_) => closed(PeerFault::UnexpectedRecord),
        Phase::Open(other) => on_open(other, said),
        Phase::Closed(fault) => closed(fault),
    }
}

/// What the record that was read does, or its fault.
pub(crate) fn step_by(phase: Phase, read: Result<Record, RecordFault>) -> Step
    ensures { result ≡ step_by phase read }
{
    match read {
        Ok(said) => stepped(phase, said),
        Err(fault) => closed(PeerFault::Record(fault)),
    }
}

/// How far a connection is once the Hello that came is judged, where one did.
pub(crate) fn settled(own: &Own, dialled: Option<u8>, met: &[Met], phase: Phase) -> Phase
    ensures { result ≡ settled own.now dialled met.now phase }
{
    match phase {
        Phase::Asked(hello) => match judge(own, dialled, met, &hello) {
            Ok(()) => Phase::Open(hello),
            Err(fault) => Phase::Closed(fault),
        },
        Phase::Greeting(mine) => Phase::Greeting(mine),
        Phase::Open(other) => Phase::Open(other),
        Phase::Closed(fault) => Phase::Closed(fault),
    }
}
