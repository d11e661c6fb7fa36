//! What is to be written on a connection.

ghost use Rattle.std.specs.Prelude.{◌≡◌, ◌≤◌, ◌<◌, [], length, drop, None};
ghost use Rattle.byte_queue.specs.Queued.{Queued};
ghost use Rattle.peer_codes.specs.declared.key.Key.{Key};
ghost use Rattle.peer_codes.specs.declared.way.Way.{Way};
ghost use Rattle.peer_codes.specs.declared.phase.Phase.TheVariants as phases;
ghost use Rattle.peer_codes.specs.declared.kind.Kind.TheVariants as kind_of;
ghost use Rattle.peer_codes.specs.Codes.{coded, after};
ghost use Rattle.peer_codes.specs.Outgoings.{unwritten, later, with_begun, is_idle, Put};
ghost use Rattle.peer_codes.specs.Connections.{begun_on, begun_open};

use crate::beat::Beat;
use crate::frame::Frame;
use crate::hello::Hello;
use crate::kind::Kind;
use crate::limits::{LAST_NUMBER, MOST_FRAME, MOST_RECORD};
use crate::more::More;
use crate::records::Proof;
use crate::way::Way;
use crate::writing::beat_bytes;
use arrayvec::ArrayVec;

/// What is to be written on a connection: what is left of the record that was begun, and what waits behind it, none of
/// it coded yet.
#[derive(Drop)]
pub struct Outgoing {
    /// This side's own Hello.
    pub(crate) hello: Option<Hello>,
    /// This side's own proof.
    pub(crate) proof: Option<Proof>,
    /// The newest beat.
    pub(crate) beat: Option<Beat>,
    /// The next record of a further kind.
    pub(crate) more: Option<More>,
    /// The next frame.
    pub(crate) frame: Option<Frame>,
    /// The record that was begun.
    pub(crate) begun: ArrayVec<u8, MOST_RECORD>,
    /// How many of its bytes are written.
    pub(crate) written: usize,
}

/// A proof in place of one that isn't begun yet.
fn later(earlier: Option<Proof>, given: Option<Proof>) -> Option<Proof>
    ensures { result ≡ later earlier given }
{
    match given {
        Some(proof) => Some(proof),
        None => earlier,
    }
}

impl Outgoing {
    /// Nothing is to be written but this Hello, if it is given.
    pub(crate) fn new(hello: Option<Hello>) -> Outgoing
        ensures { result ≡ record { hello = hello; proof = None; beat = None; more = None; frame = None; begun = record { items = [] }; written = 0 } }
    {
        Outgoing {
            hello,
            proof: None,
            beat: None,
            more: None,
            frame: None,
            begun: ArrayVec::new(),
            written: 0,
        }
    }

    /// This side's own proof, if it is given, is to be written.
    pub(crate) fn say_proof(&mut self, proof: Option<Proof>)
        ensures { self.new ≡ record self.old { proof = later self.old.proof proof } }
    {
        self.proof = later(self.proof, proof);
    }

    /// This frame is to be written next, unless one waits already: then it is given back.
    pub(crate) fn put_frame(&mut self, frame: Frame) -> Option<Frame>
        ensures { Put self.old.frame frame self.old self.new result }
    {
        match &self.frame {
            Some(_) => Some(frame),
            None => {
                self.frame = Some(frame);
                None
            }
        }
    }

    /// What of the record that was begun isn't written yet.
    #[tactic(auto, using(std::proofs::lemmas::List::drop_all))]
    pub(crate) fn unwritten(&self) -> &[u8]
        ensures { result.now ≡ unwritten self.now }
    {
        let begun = self.begun.as_slice();
        if self.written < begun.len() {
            &begun[self.written..]
        } else {
            &[]
        }
    }

    /// Whether nothing is unfinished, and nothing waits.
    pub(crate) fn is_idle(&self) -> bool
        ensures { result ≡ is_idle self.now }
    {
        self.unwritten().is_empty()
            && self.hello.is_none()
            && self.proof.is_none()
            && self.beat.is_none()
            && self.more.is_none()
            && self.frame.is_none()
    }

    /// So many bytes of it are written now.
    pub(crate) fn wrote(&mut self, count: usize)
        requires { count ≤ length (unwritten self.old) }
        ensures unwritten { unwritten self.new ≡ drop count (unwritten self.old) }
        ensures others { self.new ≡ record self.old { written = self.new.written } }
    {
        if self.written >= self.begun.len() {
            return;
        }
        self.written += count;
    }

    /// The record with this text is begun.
    pub(crate) fn start(&mut self, text: ArrayVec<u8, MOST_RECORD>)
        ensures { self.new ≡ with_begun text.items self.old }
    {
        self.begun = text;
        self.written = 0;
    }

    /// Codes and begins a frame of these bytes, which doesn't wait before.
    pub(crate) fn start_frame(&mut self, way: &mut Way, frame: &[u8])
        requires number { way.old.number < LAST_NUMBER }
        requires most { length frame.now ≤ MOST_FRAME }
        ensures out { self.new ≡ with_begun (coded way.old kind_of.Frame frame.now) self.old }
        ensures way { way.new ≡ after way.old (length frame.now) }
    {
        way.cover(Kind::Frame, frame, &mut self.begun);
        self.written = 0;
    }

    /// Codes and begins the frame that waits, if one does.
    fn begin_frame(&mut self, way: &mut Way)
        requires { way.old.number < LAST_NUMBER }
        ensures { (reading : Way) (key : Key) (came : Queued) → record { key = key; phase = phases.Open (record { reading = reading; writing = way.new }); came = came; out = self.new } ≡ begun_on (record { reading = reading; writing = way.old }) None None self.old.frame key came self.old }
    {
        if let Some(frame) = &self.frame {
            way.cover(Kind::Frame, frame.bytes.as_slice(), &mut self.begun);
            self.written = 0;
            self.frame = None;
        }
    }

    /// Codes and begins the record of a further kind that waits, or else the frame.
    fn begin_behind(&mut self, way: &mut Way)
        requires { way.old.number < LAST_NUMBER }
        ensures { (reading : Way) (key : Key) (came : Queued) → record { key = key; phase = phases.Open (record { reading = reading; writing = way.new }); came = came; out = self.new } ≡ begun_on (record { reading = reading; writing = way.old }) None self.old.more self.old.frame key came self.old }
    {
        if let Some(more) = &self.more {
            way.cover(
                Kind::More(more.kind),
                more.bytes.as_slice(),
                &mut self.begun,
            );
            self.written = 0;
            self.more = None;
            return;
        }
        self.begin_frame(way);
    }

    /// Codes and begins the beat, or else what waits behind it.
    fn begin_on(&mut self, way: &mut Way)
        requires { way.old.number < LAST_NUMBER }
        ensures { (reading : Way) (key : Key) (came : Queued) → record { key = key; phase = phases.Open (record { reading = reading; writing = way.new }); came = came; out = self.new } ≡ begun_on (record { reading = reading; writing = way.old }) self.old.beat self.old.more self.old.frame key came self.old }
    {
        if let Some(beat) = self.beat {
            way.cover(Kind::Beat, beat_bytes(&beat).as_slice(), &mut self.begun);
            self.written = 0;
            self.beat = None;
            return;
        }
        self.begin_behind(way);
    }

    /// Codes and begins what waits, while numbers are left.
    pub(crate) fn begin_coded(&mut self, way: &mut Way)
        ensures { (reading : Way) (key : Key) (came : Queued) → record { key = key; phase = phases.Open (record { reading = reading; writing = way.new }); came = came; out = self.new } ≡ begun_open (record { reading = reading; writing = way.old }) key came self.old }
    {
        if way.has_number() {
            self.begin_on(way);
        }
    }
}
