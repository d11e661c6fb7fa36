ghost use Rattle.std.specs.Prelude.{◌≡◌, ◌≤◌, ◌<◌, ◌++◌, ◌∷◌, [], List, ℕ, length, Some, None, OnOk, OnErr};
ghost use Rattle.node_links.specs.declared.own.Own as owns;
ghost use Rattle.node_links.specs.declared.connection.Connection.TheVariants.{Coded};
ghost use Rattle.node_links.specs.Talks.{Talk};
ghost use Rattle.node_links.specs.Judging.{IsKnown};
ghost use Rattle.node_links.specs.Waiting.{IsBegun};
ghost use Rattle.node_links.specs.Arriving.{told};
ghost use Rattle.node_links.specs.Kinds.{IsCalling, IsListening, room_of, TakesIn, NextBy, answered_coded, answered_by, settled_by, begun_by, Writes};
ghost use Rattle.node_links.specs.Speaking.{OwnHello, Spoke, SpeaksOn, SpeaksOnWith, SpeaksOnWritten, SpeaksAs, SpeaksOf};
ghost use Rattle.node_links.specs.Going.{Goes, GoesOn, GoesOnWith, GoesOnWritten, IsOfKey, Tells, OpensAs, silence, unwritten_of, peer_of, taken_of, fault_of};

use crate::arrived::Arrived;
use crate::coded_connection::CodedConnection;
use crate::outbox::Outbox;
use crate::own::{Met, Own};
use crate::peer_fault::PeerFault;
use crate::plain_connection::PlainConnection;
use peer_codes::{
    Frame, Hello, Key, Link, calls_happen, events_stand_in_front, own_proofs_are_said,
};
use std::alloc::{AllocError, Global};

/// A connection between two nodes, as a machine without sockets, with codes where the node has a key.
///
/// What comes is put in by `take`, in any pieces, and `next` tells what it says. What waits to be judged is judged by
/// `settle`: then the connection is open, or closed by a fault, or waits for the other's proof. `begin` begins the next record
/// that is to be said, where none is unfinished; `unwritten` shows what of it isn't written yet, and `wrote` says how much
/// was.
///
/// Each call keeps what a connection goes by (`Goes`), of all that came over it and was written to it; so of each frame,
/// beat and record of a further kind that is told is known how it came (`next`).
///
/// Each call keeps too that what was written, with what is begun, is this side's own (`Spoke`): its Hello, with codes its proof
/// and then coded records; each frame of them was handed over for the node at the other end. That holds whatever came, also of
/// one that is closed.
#[derive(Drop)]
pub enum Connection {
    /// Of a node without a key.
    Plain(PlainConnection),
    /// Of a node with one.
    Coded(CodedConnection),
}

/// The own Hello of a connection with codes is to be written next, if it has a nonce.
fn answer_coded(coded: &mut CodedConnection, own: Hello)
    ensures answers { coded.new ≡ answered_coded own.link own coded.old }
    ensures goes { GoesOn (Coded coded.old) (Coded coded.new) }
    ensures speaks { SpeaksAs (Coded coded.old) (Coded coded.new) own }
{
    match own.link {
        Link::Plain => (),
        Link::Coded(_) => coded.answer(own),
    }
}

impl Connection {
    /// The side that dialled, of a node with this key, if it has one, with its own Hello, which is to be written first. With a
    /// key it has a nonce, which is to be new. Takes no memory.
    pub fn call(alloc: Global, key: Option<Key>, own: Hello) -> Connection
        requires { IsOfKey key own.link }
        ensures goes { (own : owns.Own) (number : ℕ) → own.key ≡ key → Goes own (silence (Some number)) result }
        ensures calls { IsCalling own result }
        ensures speaks { (node : owns.Own) (number : ℕ) → node.key ≡ key → Spoke (OwnHello own ∷ []) node (silence (Some number)) result }
    {
        match key {
            None => Connection::Plain(PlainConnection::call(alloc, own)),
            Some(key) => Connection::Coded(CodedConnection::call(alloc, key, own)),
        }
    }

    /// The side that was dialled. Takes no memory.
    pub fn listen(alloc: Global, key: Option<Key>) -> Connection
        ensures goes { (own : owns.Own) → own.key ≡ key → Goes own (silence None) result }
        ensures listens { IsListening result }
        ensures speaks { (node : owns.Own) → node.key ≡ key → Spoke [] node (silence None) result }
    {
        match key {
            None => Connection::Plain(PlainConnection::listen(alloc)),
            Some(key) => Connection::Coded(CodedConnection::listen(alloc, key)),
        }
    }

    /// Takes the next piece of what comes, of any length. An `Err`, for want of memory, changes nothing, and comes only where
    /// there was no room.
    pub fn take(&mut self, piece: &[u8]) -> Result<(), AllocError>
        ensures ok { OnOk result (GoesOnWith self.old self.new piece.now) }
        ensures takes { OnOk result (TakesIn piece.now self.old self.new) }
        ensures speaks { OnOk result (SpeaksOnWith self.old self.new piece.now) }
        ensures err { OnErr result (self.new ≡ self.old) }
        ensures full { OnErr result (room_of self.old < length piece.now) }
    {
        match self {
            Connection::Plain(plain) => plain.take(piece),
            Connection::Coded(coded) => coded.take(piece),
        }
    }

    /// What came next, or the fault that closed the connection, told again from then on. A frame goes into the buffer, in
    /// place of what that had.
    ///
    /// `None` where the record in front isn't whole, and while something waits to be judged or answered. What is told of an
    /// open connection, a frame, a beat or what a record of a further kind tells, came from the node at the other end: without
    /// codes behind its Hello; with them as the next coded record of its way, behind both Hellos and its proof.
    pub fn next(&mut self, frame: &mut Frame) -> Option<Result<Arrived, PeerFault>>
        ensures next { NextBy self.old (told result frame.new) self.new }
        ensures goes { GoesOn self.old self.new }
        ensures tells { Tells (told result frame.new) self.old self.new }
        ensures speaks { SpeaksOn self.old self.new }
    {
        match self {
            Connection::Plain(plain) => plain.next(frame),
            Connection::Coded(coded) => {
                events_stand_in_front();
                own_proofs_are_said();
                calls_happen();
                coded.next(frame)
            }
        }
    }

    /// This side's own Hello is to be written next, where it was dialled: it answers with it also where it refuses. With codes
    /// it has a nonce, which is to be new; one without isn't said then.
    pub fn answer(&mut self, own: Hello)
        ensures answers { self.new ≡ answered_by own self.old }
        ensures goes { GoesOn self.old self.new }
        ensures speaks { SpeaksAs self.old self.new own }
    {
        match self {
            Connection::Plain(plain) => plain.answer(own),
            Connection::Coded(coded) => answer_coded(coded, own),
        }
    }

    /// Judges what waits to be judged, of the node that was dialled or of one who dialled. Without codes that is the whole
    /// Hello; with them what it says of the match first, and what changes by it once the other's proof is right.
    pub fn settle(&mut self, own: &Own, dialled: Option<u8>, met: &[Met])
        ensures settles { self.new ≡ settled_by own.now dialled met.now self.old }
        ensures known { IsKnown own.now met.now (taken_of self.old) (taken_of self.new) }
        ensures goes { (talk : Talk) → talk.dialled ≡ dialled → Goes own.now talk self.old → Goes own.now talk self.new }
        ensures speaks { SpeaksOn self.old self.new }
    {
        match self {
            Connection::Plain(plain) => plain.settle(own, dialled, met),
            Connection::Coded(coded) => coded.settle(own, dialled, met),
        }
    }

    /// The node at the other end, once the connection is open.
    pub fn peer(&self) -> Option<u8>
        ensures { result ≡ peer_of self.now }
    {
        match self {
            Connection::Plain(plain) => plain.peer(),
            Connection::Coded(coded) => coded.peer(),
        }
    }

    /// What that node said first: with codes it has proved that it has the key.
    #[tactic(auto, using(crate::proofs::Opening::opens_as))]
    pub fn taken(&self) -> Option<Hello>
        ensures taken { result ≡ taken_of self.now }
        ensures opens { OpensAs result self.now }
    {
        match self {
            Connection::Plain(plain) => plain.taken(),
            Connection::Coded(coded) => coded.taken(),
        }
    }

    /// The fault that closed the connection, if one did.
    pub fn fault(&self) -> Option<PeerFault>
        ensures { result ≡ fault_of self.now }
    {
        match self {
            Connection::Plain(plain) => plain.fault(),
            Connection::Coded(coded) => coded.fault(),
        }
    }

    /// Begins the next record, where none is unfinished: this side's own Hello, with codes its proof, and where the connection
    /// is open what waits, the beat first.
    pub fn begin(&mut self, waiting: &mut Outbox)
        ensures begins { self.new ≡ (begun_by self.old waiting.old).0 }
        ensures rest { waiting.new ≡ (begun_by self.old waiting.old).1 }
        ensures goes { GoesOn self.old self.new }
        ensures waiting { IsBegun waiting.old waiting.new }
        ensures speaks { SpeaksOf self.old self.new (peer_of self.old) waiting.old.frames }
    {
        match self {
            Connection::Plain(plain) => plain.begin(waiting),
            Connection::Coded(coded) => {
                calls_happen();
                coded.begin(waiting);
            }
        }
    }

    /// What of the record that was begun isn't written yet.
    pub fn unwritten(&self) -> &[u8]
        ensures { result.now ≡ unwritten_of self.now }
    {
        match self {
            Connection::Plain(plain) => plain.unwritten(),
            Connection::Coded(coded) => coded.unwritten(),
        }
    }

    /// So many bytes of it are written now.
    pub fn wrote(&mut self, count: usize)
        requires { count ≤ length (unwritten_of self.old) }
        ensures writes { Writes count self.old self.new }
        ensures goes { GoesOnWritten self.old self.new count }
        ensures speaks { SpeaksOnWritten self.old self.new count }
    {
        match self {
            Connection::Plain(plain) => plain.wrote(count),
            Connection::Coded(coded) => coded.wrote(count),
        }
    }
}
