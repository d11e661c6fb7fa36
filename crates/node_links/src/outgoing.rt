//! What is written on a connection.

ghost use Rattle.std.specs.Prelude.{◌≡◌, ◌≤◌, [], length, drop};
ghost use Rattle.peer_codes.specs.declared.records.Record.TheVariants as record_of;
ghost use Rattle.peer_codes.specs.Spelling.{record_text};
ghost use Rattle.node_links.specs.Frames.{frame_of};
ghost use Rattle.node_links.specs.Outgoings.{unwritten, with_begun};

use arrayvec::ArrayVec;
use byteorder::{BigEndian, ByteOrder};
use paxos_wire::push_all;
use peer_codes::limits::{LENGTH_BYTES, MOST_FRAME, MOST_RECORD};
use peer_codes::{Hello, Kind};

/// What is written on a connection: this side's own Hello, as long as it waits, and the record that was begun.
#[derive(Drop)]
pub struct Outgoing {
    /// This side's own Hello, where it is to be written next.
    pub(crate) hello: Option<Hello>,
    /// The record that was begun.
    pub(crate) begun: ArrayVec<u8, MOST_RECORD>,
    /// How many of its bytes are written.
    pub(crate) written: usize,
}

impl Outgoing {
    /// Nothing is to be written but this Hello, if it is given.
    pub(crate) fn new(hello: Option<Hello>) -> Outgoing
        ensures { result ≡ record { hello = hello; begun = record { items = [] }; written = 0 } }
    {
        Outgoing {
            hello,
            begun: ArrayVec::new(),
            written: 0,
        }
    }

    /// What of the record that was begun isn't written yet.
    #[tactic(auto, using(std::proofs::lemmas::List::drop_all))]
    pub(crate) fn unwritten(&self) -> &[u8]
        ensures { result.now ≡ unwritten self.now }
    {
        let begun = self.begun.as_slice();
        if self.written < begun.len() {
            &begun[self.written..]
        } else {
            &[]
        }
    }

    /// So many bytes of it are written now.
    pub(crate) fn wrote(&mut self, count: usize)
        requires { count ≤ length (unwritten self.old) }
        ensures unwritten { unwritten self.new ≡ drop count (unwritten self.old) }
        ensures others { self.new ≡ record self.old { written = self.new.written } }
    {
        if self.written >= self.begun.len() {
            return;
        }
        self.written += count;
    }

    /// The record with this text is begun.
    pub(crate) fn start(&mut self, text: ArrayVec<u8, MOST_RECORD>)
        ensures { self.new ≡ with_begun text.items self.old }
    {
        self.begun = text;
        self.written = 0;
    }

    /// The record of a frame of these bytes is begun, written where the one before it stood.
    #[tactic(auto, unfolding(peer_codes::specs::Spelling::enveloped))]
    pub(crate) fn start_frame(&mut self, frame: &[u8])
        requires { length frame.now ≤ MOST_FRAME }
        ensures { self.new ≡ with_begun (record_text (record_of.Frame (frame_of frame.now))) self.old }
    {
        let mut length = [0; LENGTH_BYTES];
        BigEndian::write_u32(&mut length, (frame.len() + 1) as u32);
        self.begun.clear();
        push_all(&mut self.begun, &length);
        self.begun.push(Kind::Frame.byte());
        push_all(&mut self.begun, frame);
        self.written = 0;
    }
}
