ghost use Rattle.std.specs.Prelude.{◌≡◌, ◌≤◌, ◌<◌, ◌++◌, [], length, drop, take, Some, None, OnOk, OnErr};
ghost use Rattle.peer_codes.specs.declared.records.Record.TheVariants as record_of;
ghost use Rattle.peer_codes.specs.Spelling.{record_text};
ghost use Rattle.node_links.specs.declared.phase.Phase.TheVariants as phases;
ghost use Rattle.node_links.specs.Arriving.{told};
ghost use Rattle.node_links.specs.Fronts.{HasFrame};
ghost use Rattle.node_links.specs.Outgoings.{unwritten, with_begun};
ghost use Rattle.node_links.specs.Steps.{settled};
ghost use Rattle.node_links.specs.Going.{taken_in};
ghost use Rattle.node_links.specs.Frames.{frame_of};
ghost use Rattle.node_links.specs.Waiting.{first_frame, more_of, more_record, without_more, next_behind, rest_behind};
ghost use Rattle.node_links.specs.Versions.{in_version, version_in};
ghost use Rattle.node_links.specs.Connections.{ReadsOrWaits, Next, said_next, begun_open, begun_first, begun_next, peer_in, fault_in};

use crate::arrived::{Arrived, lend};
use crate::frames::copy_into;
use crate::front::{CONTENT_AT, Front, front_of};
use crate::heard::Heard;
use crate::outbox::Outbox;
use crate::outgoing::Outgoing;
use crate::own::{Met, Own};
use crate::peer_fault::PeerFault;
use crate::phase::Phase;
use crate::step::{Step, settled, step_by};
use byte_queue::ByteQueue;
use peer_codes::{Beat, Frame, Hello, Record, Version, read_record, record_bytes};
use std::alloc::{AllocError, Global};

/// A connection between two nodes without codes, as a machine without sockets.
///
/// What comes is put in by `take`, in any pieces, and `next` tells what it says. The Hello that came is judged by `settle`:
/// then the connection is open, or closed by a fault. `begin` begins the next record that is to be said, where none is
/// unfinished; `unwritten` shows what of it isn't written yet, and `wrote` says how much was.
#[derive(Drop)]
pub struct PlainConnection {
    phase: Phase,
    /// What came and wasn't read yet.
    came: ByteQueue,
    out: Outgoing,
}

impl PlainConnection {
    /// The side that dialled, with its own Hello, which is to be written first. Takes no memory.
    pub fn call(alloc: Global, own: Hello) -> PlainConnection
        ensures phase { result.phase ≡ phases.Greeting (Some own.version) }
        ensures came { result.came.waiting ≡ [] }
        ensures out { result.out ≡ record { hello = Some own; begun = record { items = [] }; written = 0 } }
    {
        PlainConnection {
            phase: Phase::Greeting(Some(own.version)),
            came: ByteQueue::new(alloc),
            out: Outgoing::new(Some(own)),
        }
    }

    /// The side that was dialled. Takes no memory.
    pub fn listen(alloc: Global) -> PlainConnection
        ensures phase { result.phase ≡ phases.Greeting None }
        ensures came { result.came.waiting ≡ [] }
        ensures out { result.out ≡ record { hello = None; begun = record { items = [] }; written = 0 } }
    {
        PlainConnection {
            phase: Phase::Greeting(None),
            came: ByteQueue::new(alloc),
            out: Outgoing::new(None),
        }
    }

    /// Takes the next piece of what comes, of any length. An `Err`, for want of memory, changes nothing.
    pub fn take(&mut self, piece: &[u8]) -> Result<(), AllocError>
        ensures ok { OnOk result (self.new.came.waiting ≡ self.old.came.waiting ++ piece.now) }
        ensures err { OnErr result (self.new ≡ self.old) }
        // It fails only where room is missing.
        ensures full { OnErr result (self.old.came.room < length piece.now) }
        ensures others { self.new ≡ record self.old { came = self.new.came } }
    {
        self.came.push(piece)
    }

    /// What stands in front of what came; `None` where it isn't whole.
    fn read(&mut self) -> Option<Result<Heard, PeerFault>>
        ensures { ReadsOrWaits self.old result self.new }
    {
        let (read, length) = read_record(self.came.waiting())?;
        let Step { phase, heard } = step_by(self.phase, read);
        self.came.skip(length);
        self.phase = phase;
        Some(heard)
    }

    /// The same, where a frame goes into the buffer.
    fn read_into(&mut self, frame: &mut Frame) -> Option<Result<Arrived, PeerFault>>
        ensures { ReadsOrWaits self.old (told result frame.new) self.new }
    {
        lend(self.read(), frame)
    }

    /// Takes the frame in front, which ends there, into the buffer.
    fn take_frame(&mut self, end: usize, frame: &mut Frame)
        requires { HasFrame self.old.came.waiting end }
        ensures waiting { self.new.came.waiting ≡ drop end self.old.came.waiting }
        ensures others { self.new ≡ record self.old { came = self.new.came } }
        ensures frame { frame.new ≡ frame_of (drop 5 (take end self.old.came.waiting)) }
    {
        copy_into(frame, &self.came.waiting()[CONTENT_AT..end]);
        self.came.skip(end);
    }

    /// What stands in front of what came on an open connection. A frame is copied as it lies, and nothing else that is as
    /// long: each call makes room for what it may hand on.
    fn read_open(&mut self, frame: &mut Frame) -> Option<Result<Arrived, PeerFault>>
        ensures { (other : Hello) → self.old.phase ≡ phases.Open other → ReadsOrWaits self.old (told result frame.new) self.new }
    {
        match front_of(self.came.waiting()) {
            Front::Partial => None,
            Front::Frame(end) => {
                self.take_frame(end, frame);
                Some(Ok(Arrived::Frame))
            }
            Front::Other => self.read_into(frame),
        }
    }

    /// What came next, or the fault that closed the connection, told again from then on. A frame goes into the buffer, in
    /// place of what that had.
    ///
    /// `None` where the record in front isn't whole, and while the Hello that came isn't judged. The fault is the first of:
    /// 120 `BadLength`, 121 `BadKind` and 122 `BadHello` of the record in front, and 126 `UnexpectedRecord` (a kind that may not
    /// come now).
    pub fn next(&mut self, frame: &mut Frame) -> Option<Result<Arrived, PeerFault>>
        ensures { Next self.old.phase self.old (told result frame.new) self.new }
    {
        match self.phase {
            Phase::Asked(_) => None,
            Phase::Closed(fault) => Some(Err(fault)),
            Phase::Greeting(_) => self.read_into(frame),
            Phase::Open(_) => self.read_open(frame),
        }
    }

    /// The version in which this side answers: that of the Hello that came.
    fn version(&self) -> Version
        ensures { result ≡ version_in self.now.phase }
    {
        match self.phase {
            Phase::Asked(hello) => hello.version,
            Phase::Open(other) => other.version,
            Phase::Greeting(_) => Version::First,
            Phase::Closed(_) => Version::First,
        }
    }

    /// This side's own Hello is to be written next, in the version of the one that came: the called answers with it, also
    /// where it refuses.
    pub fn answer(&mut self, own: Hello)
        ensures { self.new ≡ record self.old { out = record self.old.out { hello = Some (in_version (version_in self.old.phase) own) } } }
    {
        let version = self.version();
        self.out.hello = Some(Hello { version, ..own });
    }

    /// Judges the Hello that came, where one waits for it: the connection is open then, or closed by a fault.
    pub fn settle(&mut self, own: &Own, dialled: Option<u8>, met: &[Met])
        ensures { self.new ≡ record self.old { phase = settled own.now dialled met.now self.old.phase } }
    {
        self.phase = settled(own, dialled, met, self.phase);
    }

    /// The node at the other end, once the connection is open.
    pub fn peer(&self) -> Option<u8>
        ensures { result ≡ peer_in self.now.phase }
    {
        match self.phase {
            Phase::Open(other) => Some(other.ends.from),
            Phase::Greeting(_) => None,
            Phase::Asked(_) => None,
            Phase::Closed(_) => None,
        }
    }

    /// What that node said first.
    pub fn taken(&self) -> Option<Hello>
        ensures { result ≡ taken_in self.now.phase }
    {
        match self.phase {
            Phase::Open(other) => Some(other),
            Phase::Greeting(_) => None,
            Phase::Asked(_) => None,
            Phase::Closed(_) => None,
        }
    }

    /// The fault that closed the connection, if one did.
    pub fn fault(&self) -> Option<PeerFault>
        ensures { result ≡ fault_in self.now.phase }
    {
        match self.phase {
            Phase::Closed(fault) => Some(fault),
            Phase::Greeting(_) => None,
            Phase::Asked(_) => None,
            Phase::Open(_) => None,
        }
    }

    /// Begins a beat.
    fn begin_beat(&mut self, beat: Beat)
        ensures { self.new ≡ record self.old { out = with_begun (record_text (record_of.Beat beat)) self.old.out } }
    {
        self.out.start(record_bytes(&Record::Beat(beat)));
    }

    /// Begins the oldest frame that waits, if one does.
    fn begin_frame(&mut self, waiting: &mut Outbox)
        ensures own { self.new ≡ said_next self.old (first_frame waiting.old.frames) }
        ensures waiting { waiting.new ≡ record waiting.old { frames = drop 1 waiting.old.frames } }
    {
        if let Some(frame) = waiting.take_frame() {
            self.out.start_frame(frame.as_slice());
        }
    }

    /// Begins the record of a further kind that waits, if one does and the connection is of this version.
    fn begin_more(&mut self, version: Version, waiting: &mut Outbox)
        ensures own { self.new ≡ said_next self.old (more_record (more_of version waiting.old)) }
        ensures waiting { waiting.new ≡ without_more version waiting.old }
    {
        if let Some(more) = waiting.take_more(version) {
            self.out.start(record_bytes(&Record::More(more)));
        }
    }

    /// Begins what waits next behind the beat, if anything does.
    fn begin_behind(&mut self, version: Version, waiting: &mut Outbox)
        ensures own { self.new ≡ said_next self.old (next_behind (more_of version waiting.old) waiting.old.frames) }
        ensures waiting { waiting.new ≡ rest_behind (more_of version waiting.old) version waiting.old }
    {
        if waiting.has_more(version) {
            self.begin_more(version, waiting);
        } else {
            self.begin_frame(waiting);
        }
    }

    /// Begins what waits next, if anything does.
    fn begin_open(&mut self, version: Version, waiting: &mut Outbox)
        ensures own { self.new ≡ (begun_open version self.old waiting.old).0 }
        ensures waiting { waiting.new ≡ (begun_open version self.old waiting.old).1 }
    {
        match waiting.take_beat() {
            Some(beat) => self.begin_beat(beat),
            None => self.begin_behind(version, waiting),
        }
    }

    /// Begins this side's own Hello.
    fn begin_hello(&mut self, hello: Hello)
        ensures { self.new ≡ record self.old { out = with_begun (record_text (record_of.Hello hello)) (record self.old.out { hello = None }) } }
    {
        self.out.hello = None;
        self.out.start(record_bytes(&Record::Hello(hello)));
    }

    /// Begins what is to be said next, if anything is.
    fn begin_first(&mut self, waiting: &mut Outbox)
        ensures own { self.new ≡ (begun_first self.old.out.hello self.old.phase self.old waiting.old).0 }
        ensures waiting { waiting.new ≡ (begun_first self.old.out.hello self.old.phase self.old waiting.old).1 }
    {
        if let Some(hello) = self.out.hello {
            self.begin_hello(hello);
            return;
        }
        match self.phase {
            Phase::Open(other) => {
                if waiting.has_next(other.version) {
                    self.begin_open(other.version, waiting);
                }
            }
            Phase::Greeting(_) => (),
            Phase::Asked(_) => (),
            Phase::Closed(_) => (),
        }
    }

    /// Begins the next record, where none is unfinished: this side's own Hello, and where the connection is open what
    /// waits, the beat first, and records of further kinds before the frames.
    #[tactic(auto, unfolding(crate::specs::Connections::begun_next))]
    pub fn begin(&mut self, waiting: &mut Outbox)
        ensures own { self.new ≡ (begun_next self.old waiting.old).0 }
        ensures waiting { waiting.new ≡ (begun_next self.old waiting.old).1 }
    {
        if !self.out.unwritten().is_empty() {
            return;
        }
        self.begin_first(waiting);
    }

    /// What of the record that was begun isn't written yet.
    pub fn unwritten(&self) -> &[u8]
        ensures { result.now ≡ unwritten self.now.out }
    {
        self.out.unwritten()
    }

    /// So many bytes of it are written now.
    pub fn wrote(&mut self, count: usize)
        requires { count ≤ length (unwritten self.old.out) }
        ensures unwritten { unwritten self.new.out ≡ drop count (unwritten self.old.out) }
        ensures others { self.new ≡ record self.old { out = record self.old.out { written = self.new.out.written } } }
    {
        self.out.wrote(count);
    }
}
