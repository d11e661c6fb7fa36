ghost use Rattle.std.specs.Prelude.{◌≡◌, ◌≤◌, ◌<◌, ◌++◌, [], true, length, drop, None, Some, OnOk, OnErr};
ghost use Rattle.peer_codes.specs.declared.phase.Phase.TheVariants as phases;
ghost use Rattle.peer_codes.specs.Connections.{answered};
ghost use Rattle.peer_codes.specs.Outgoings.{unwritten};
ghost use Rattle.peer_codes.specs.Steps.{is_coded};
ghost use Rattle.node_links.specs.declared.stage.Stage.TheVariants as stages;
ghost use Rattle.node_links.specs.Going.{taken_at};
ghost use Rattle.node_links.specs.Arriving.{told};
ghost use Rattle.node_links.specs.Frames.{frame_of};
ghost use Rattle.node_links.specs.Waiting.{first_frame, more_of, more_record, without_more, next_behind, rest_behind};
ghost use Rattle.node_links.specs.Coding.{HearsOrWaits, HearsProof, NextCoded, has_said_hello, settled_stage, peer_at, fault_at, said_next, begun_open, begun_by, begun_coded};
ghost use Rattle.node_links.specs.Versions.{in_version, version_at};
ghost use Rattle.peer_codes.specs.declared.records.Record.TheVariants as record_of;

use crate::arrived::Arrived;
use crate::coded_step::{LentStep, coded_step, settled_stage};
use crate::outbox::Outbox;
use crate::own::{Met, Own};
use crate::peer_fault::PeerFault;
use crate::stage::Stage;
use peer_codes::limits::{LEAST_FRAME, MOST_FRAME};
use peer_codes::{Beat, Connection as Channel, Frame, Hello, Key, Version};
use std::alloc::{AllocError, Global};

/// A connection between two nodes with codes, as a machine without sockets: a channel of `peer_codes`, and how the other's
/// Hello is judged.
///
/// What the Hello says of the match is judged when it came; what changes by it, a store that is known and an earlier
/// connection, only once the other's proof is right. What waits to be said stays in the `Outbox` until nothing is
/// unfinished: a frame is coded when its first byte is about to be written, so one that is dropped before breaks no code.
#[derive(Drop)]
pub struct CodedConnection {
    channel: Channel,
    stage: Stage,
}

impl CodedConnection {
    /// The side that dialled, with its own Hello, which is to be written first; its nonce is to be new. Takes no memory.
    pub fn call(alloc: Global, key: Key, own: Hello) -> CodedConnection
        requires { is_coded own.link ≡ true }
        ensures stage { result.stage ≡ stages.Greeting }
        ensures phase { result.channel.phase ≡ phases.Greeting (Some own) }
        ensures key { result.channel.key ≡ key }
        ensures came { result.channel.came.waiting ≡ [] }
        ensures out { result.channel.out ≡ record { hello = Some own; proof = None; beat = None; more = None; frame = None; begun = record { items = [] }; written = 0 } }
    {
        CodedConnection {
            channel: Channel::call(alloc, key, own),
            stage: Stage::Greeting,
        }
    }

    /// The side that was dialled. Takes no memory.
    pub fn listen(alloc: Global, key: Key) -> CodedConnection
        ensures stage { result.stage ≡ stages.Greeting }
        ensures phase { result.channel.phase ≡ phases.Greeting None }
        ensures key { result.channel.key ≡ key }
        ensures came { result.channel.came.waiting ≡ [] }
        ensures out { result.channel.out ≡ record { hello = None; proof = None; beat = None; more = None; frame = None; begun = record { items = [] }; written = 0 } }
    {
        CodedConnection {
            channel: Channel::listen(alloc, key),
            stage: Stage::Greeting,
        }
    }

    /// Takes the next piece of what comes, of any length. An `Err`, for want of memory, changes nothing, and comes only where
    /// there was no room.
    pub fn take(&mut self, piece: &[u8]) -> Result<(), AllocError>
        ensures ok { OnOk result (self.new.channel.came.waiting ≡ self.old.channel.came.waiting ++ piece.now) }
        ensures err { OnErr result (self.new ≡ self.old) }
        ensures full { OnErr result (self.old.channel.came.room < length piece.now) }
        ensures others { self.new ≡ record self.old { channel = record self.old.channel { came = self.new.channel.came } } }
    {
        self.channel.take_piece(piece)
    }

    /// What the channel tells next, of which a frame goes into the buffer.
    fn hear(&mut self, frame: &mut Frame) -> Option<Result<Arrived, PeerFault>>
        ensures { HearsOrWaits self.old (told result frame.new) self.new }
    {
        let came = self.channel.next(frame)?;
        let LentStep { stage, told } = coded_step(self.stage, came, frame);
        self.stage = stage;
        Some(told)
    }

    /// The same where the other's proof comes next, which is over both Hellos: so not before this side's own is written.
    fn hear_proof(&mut self, frame: &mut Frame) -> Option<Result<Arrived, PeerFault>>
        ensures { HearsProof (has_said_hello self.old.channel.out) self.old (told result frame.new) self.new }
    {
        if !self.channel.has_said_hello() {
            return None;
        }
        self.hear(frame)
    }

    /// What came next, or the fault that closed the connection, told again from then on. A frame goes into the buffer, in
    /// place of what that had.
    ///
    /// `None` where the record in front isn't whole, while something waits to be judged, while the Hello that came isn't
    /// answered, and while this side's own Hello isn't wholly written, or anything behind it before the other's proof came. The
    /// fault is that of the channel: 120 to 122, 124, 125 or 126.
    pub fn next(&mut self, frame: &mut Frame) -> Option<Result<Arrived, PeerFault>>
        ensures { NextCoded self.old.stage self.old (told result frame.new) self.new }
    {
        match self.stage {
            Stage::Asked(_) => None,
            Stage::Proved(_) => None,
            Stage::Closed(fault) => Some(Err(fault)),
            Stage::Greeting => self.hear(frame),
            Stage::Matched(_) => self.hear_proof(frame),
            Stage::Open(_) => self.hear(frame),
        }
    }

    /// The version in which this side answers: that of the Hello that came.
    fn version(&self) -> Version
        ensures { result ≡ version_at self.now.stage }
    {
        match self.stage {
            Stage::Asked(hello) => hello.version,
            Stage::Matched(hello) => hello.version,
            Stage::Proved(hello) => hello.version,
            Stage::Open(hello) => hello.version,
            Stage::Greeting => Version::First,
            Stage::Closed(_) => Version::First,
        }
    }

    /// This side's own Hello, in the version of the one that came, and its proof are to be written next, where it was dialled
    /// and a Hello came, also one that it refused; its nonce is to be new. Else nothing happens.
    pub fn answer(&mut self, own: Hello)
        requires { is_coded own.link ≡ true }
        ensures { self.new ≡ record self.old { channel = answered self.old.channel.phase (in_version (version_at self.old.stage) own) self.old.channel } }
    {
        let version = self.version();
        self.channel.answer(Hello { version, ..own });
    }

    /// Judges what waits to be judged: what the Hello says of the match, or once the proof is right what it changes.
    pub fn settle(&mut self, own: &Own, dialled: Option<u8>, met: &[Met])
        ensures { self.new ≡ record self.old { stage = settled_stage own.now dialled met.now self.old.stage } }
    {
        self.stage = settled_stage(own, dialled, met, self.stage);
    }

    /// The node at the other end, once the connection is open.
    pub fn peer(&self) -> Option<u8>
        ensures { result ≡ peer_at self.now.stage }
    {
        match self.stage {
            Stage::Open(other) => Some(other.ends.from),
            Stage::Greeting => None,
            Stage::Asked(_) => None,
            Stage::Matched(_) => None,
            Stage::Proved(_) => None,
            Stage::Closed(_) => None,
        }
    }

    /// What that node said first.
    pub fn taken(&self) -> Option<Hello>
        ensures { result ≡ taken_at self.now.stage }
    {
        match self.stage {
            Stage::Open(other) => Some(other),
            Stage::Greeting => None,
            Stage::Asked(_) => None,
            Stage::Matched(_) => None,
            Stage::Proved(_) => None,
            Stage::Closed(_) => None,
        }
    }

    /// The fault that closed the connection, if one did.
    pub fn fault(&self) -> Option<PeerFault>
        ensures { result ≡ fault_at self.now.stage }
    {
        match self.stage {
            Stage::Closed(fault) => Some(fault),
            Stage::Greeting => None,
            Stage::Asked(_) => None,
            Stage::Matched(_) => None,
            Stage::Proved(_) => None,
            Stage::Open(_) => None,
        }
    }

    /// Codes and begins a beat.
    fn begin_beat(&mut self, beat: Beat)
        ensures { self.new ≡ said_next self.old (Some (record_of.Beat beat)) }
    {
        self.channel.tell_beat(beat);
        self.channel.begin();
    }

    /// Codes and begins a frame of these bytes; not one that is none by its length.
    fn say_frame(&mut self, frame: &[u8])
        requires { length frame.now ≤ MOST_FRAME }
        ensures { self.new ≡ said_next self.old (Some (record_of.Frame (frame_of frame.now))) }
    {
        if frame.len() < LEAST_FRAME {
            self.channel.begin();
            return;
        }
        self.channel.say_frame(frame);
    }

    /// Codes and begins the oldest frame that waits, if one does.
    fn begin_frame(&mut self, waiting: &mut Outbox)
        ensures own { self.new ≡ said_next self.old (first_frame waiting.old.frames) }
        ensures waiting { waiting.new ≡ record waiting.old { frames = drop 1 waiting.old.frames } }
    {
        match waiting.take_frame() {
            Some(frame) => self.say_frame(frame.as_slice()),
            None => self.channel.begin(),
        }
    }

    /// Codes and begins the record of a further kind that waits, if one does and the connection is of this version.
    fn begin_more(&mut self, version: Version, waiting: &mut Outbox)
        ensures own { self.new ≡ said_next self.old (more_record (more_of version waiting.old)) }
        ensures waiting { waiting.new ≡ without_more version waiting.old }
    {
        if let Some(more) = waiting.take_more(version) {
            let _ = self.channel.put_more(more);
        }
        self.channel.begin();
    }

    /// Codes and begins what waits next behind the beat, if anything does. Apart from each other, since a record of a further
    /// kind makes room for one at its entry.
    fn begin_behind(&mut self, version: Version, waiting: &mut Outbox)
        ensures own { self.new ≡ said_next self.old (next_behind (more_of version waiting.old) waiting.old.frames) }
        ensures waiting { waiting.new ≡ rest_behind (more_of version waiting.old) version waiting.old }
    {
        if waiting.has_more(version) {
            self.begin_more(version, waiting);
        } else {
            self.begin_frame(waiting);
        }
    }

    /// Codes and begins what waits next on a connection of this version.
    fn begin_open(&mut self, version: Version, waiting: &mut Outbox)
        ensures own { self.new ≡ (begun_open version self.old waiting.old).0 }
        ensures waiting { waiting.new ≡ (begun_open version self.old waiting.old).1 }
    {
        match waiting.take_beat() {
            Some(beat) => self.begin_beat(beat),
            None => self.begin_behind(version, waiting),
        }
    }

    /// The same, where the connection is open and something waits.
    fn begin_by(&mut self, waiting: &mut Outbox)
        ensures own { self.new ≡ (begun_by self.old.stage self.old waiting.old).0 }
        ensures waiting { waiting.new ≡ (begun_by self.old.stage self.old waiting.old).1 }
    {
        match self.stage {
            Stage::Open(other) => {
                if waiting.has_next(other.version) {
                    self.begin_open(other.version, waiting);
                }
            }
            Stage::Greeting => (),
            Stage::Asked(_) => (),
            Stage::Matched(_) => (),
            Stage::Proved(_) => (),
            Stage::Closed(_) => (),
        }
    }

    /// Begins the next record, where none is unfinished: this side's own Hello, its own proof, and where the connection is
    /// open what waits, the beat first and records of further kinds before the frames, coded now.
    pub fn begin(&mut self, waiting: &mut Outbox)
        ensures own { self.new ≡ (begun_coded self.old waiting.old).0 }
        ensures waiting { waiting.new ≡ (begun_coded self.old waiting.old).1 }
    {
        self.channel.begin();
        if !self.channel.unwritten().is_empty() {
            return;
        }
        self.begin_by(waiting);
    }

    /// What of the record that was begun isn't written yet.
    pub fn unwritten(&self) -> &[u8]
        ensures { result.now ≡ unwritten self.now.channel.out }
    {
        self.channel.unwritten()
    }

    /// So many bytes of it are written now.
    pub fn wrote(&mut self, count: usize)
        requires { count ≤ length (unwritten self.old.channel.out) }
        ensures unwritten { unwritten self.new.channel.out ≡ drop count (unwritten self.old.channel.out) }
        ensures others { self.new ≡ record self.old { channel = record self.old.channel { out = record self.old.channel.out { written = self.new.channel.out.written } } } }
    {
        self.channel.wrote(count);
    }
}
