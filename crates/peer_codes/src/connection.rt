ghost use Rattle.std.specs.Prelude.{◌≡◌, ◌≤◌, ◌<◌, ◌+◌, ◌++◌, ◌==◌, ◌&&◌, [], true, length, drop, is_none, Some, Err, OnOk, OnErr};
ghost use Rattle.peer_codes.specs.declared.limits.TheConstants.{LEAST_FRAME, MOST_FRAME};
ghost use Rattle.peer_codes.specs.declared.phase.Phase.TheVariants as phases;
ghost use Rattle.peer_codes.specs.declared.records.Record.TheVariants as record_of;
ghost use Rattle.peer_codes.specs.Spelling.{record_text};
ghost use Rattle.peer_codes.specs.Outgoings.{unwritten, with_begun, Put};
ghost use Rattle.peer_codes.specs.Steps.{is_coded};
ghost use Rattle.peer_codes.specs.Lending.{told};
ghost use Rattle.peer_codes.specs.Connections.{ReadsOrWaits, Next, met, turned_away, answered, takes_more, with_more, with_frame, is_free, begun_coded, begun_first, begun_next};

use crate::beat::Beat;
use crate::connection_fault::ConnectionFault;
use crate::fault::RecordFault;
use crate::frame::Frame;
use crate::hello::Hello;
use crate::hellos::Hellos;
use crate::key::Key;
use crate::kind::is_more;
use crate::lent::Lent;
use crate::more::More;
use crate::outgoing::Outgoing;
use crate::phase::Phase;
use crate::reading::front_end;
use crate::records::{Proof, Record};
use crate::role::Role;
use crate::step::{take_front, ways_of};
use crate::version::Version;
use crate::writing::record_bytes;
use byte_queue::ByteQueue;
use std::alloc::{AllocError, Global};

/// A connection with codes, as a machine without sockets.
///
/// What comes is put in by `take_piece`, in any pieces, and comes out as events by `next`, whose bytes go into a buffer; the
/// called then answers with its own Hello by `answer`. What is to be said is put in by `tell_beat`, `put_more` and
/// `put_frame`, and comes out as bytes: `begin` begins the next record where none is unfinished, `unwritten` shows what of it
/// isn't written yet, and `wrote` says how much was. `say_frame` is `put_frame` and `begin` of a frame that lies elsewhere.
/// So a frame is coded when its first byte is about to be written and no sooner: what waits is frames, and whoever
/// keeps them may drop them.
#[derive(Drop)]
pub struct Connection {
    key: Key,
    phase: Phase,
    /// What came and wasn't read yet.
    came: ByteQueue,
    out: Outgoing,
}

/// The fault that closed the connection, told again.
fn fault_again(fault: ConnectionFault) -> Option<Result<Lent, ConnectionFault>>
    ensures { result ≡ Some (Err fault) }
{
    Some(Err(fault))
}

impl Connection {
    /// The side that dialled, with its own Hello, which is to be written first; its nonce is to be new. Takes no memory.
    /// A Hello that none may say, as of a node that there isn't, closes the other side by 122 `BadHello`.
    pub fn call(alloc: Global, key: Key, own: Hello) -> Connection
        requires { is_coded own.link ≡ true }
        ensures phase { result.phase ≡ phases.Greeting (Some own) }
        ensures key { result.key ≡ key }
        ensures came { result.came.waiting ≡ [] }
        ensures out { result.out ≡ record { hello = Some own; proof = None; beat = None; more = None; frame = None; begun = record { items = [] }; written = 0 } }
    {
        Connection {
            key,
            phase: Phase::Greeting(Some(own)),
            came: ByteQueue::new(alloc),
            out: Outgoing::new(Some(own)),
        }
    }

    /// The side that was dialled. Takes no memory.
    pub fn listen(alloc: Global, key: Key) -> Connection
        ensures phase { result.phase ≡ phases.Greeting None }
        ensures key { result.key ≡ key }
        ensures came { result.came.waiting ≡ [] }
        ensures out { result.out ≡ record { hello = None; proof = None; beat = None; more = None; frame = None; begun = record { items = [] }; written = 0 } }
    {
        Connection {
            key,
            phase: Phase::Greeting(None),
            came: ByteQueue::new(alloc),
            out: Outgoing::new(None),
        }
    }

    /// Takes the next piece of what comes, of any length. An `Err`, for want of memory, changes nothing, and comes only
    /// where there was no room.
    pub fn take_piece(&mut self, piece: &[u8]) -> Result<(), AllocError>
        ensures ok { OnOk result (self.new.came.waiting ≡ self.old.came.waiting ++ piece.now) }
        ensures err { OnErr result (self.new ≡ self.old) }
        ensures full { OnErr result (self.old.came.room < length piece.now) }
        ensures room { self.old.came.room ≤ self.new.came.room + length piece.now }
        ensures others { self.new ≡ record self.old { came = self.new.came } }
    {
        self.came.push(piece)
    }

    /// What stands in front of what came, whose bytes go into the buffer; `None` where it isn't whole.
    fn read(&mut self, frame: &mut Frame) -> Option<Result<Lent, ConnectionFault>>
        ensures { ReadsOrWaits self.old (told result frame.new) self.new }
    {
        let end = front_end(self.came.waiting())?;
        let front = &self.came.waiting()[..end];
        let told = take_front(&self.key, &mut self.phase, &mut self.out, front, frame);
        self.came.skip(end);
        Some(told)
    }

    /// What came next, or the fault that closed the connection, told again from then on. The bytes of a frame and of a record
    /// of a further kind go into the buffer, in place of what that had; with another event what it has means nothing.
    ///
    /// `None` where the record in front isn't whole, and where the called has to answer first. The fault is the first
    /// of: 120 `BadLength` and 121 `BadKind` of the record in front, 126 `UnexpectedRecord` (a kind that may not come now, or no
    /// number is left) or 121 `BadKind` (a further kind where the connection isn't open, or isn't of the second version), 120 `BadLength` (a proof of another length, or no room for a tag), and then 122 `BadHello`, 124
    /// `WrongProof`, 125 `WrongTag`, or those of what stood under the seal.
    pub fn next(&mut self, frame: &mut Frame) -> Option<Result<Lent, ConnectionFault>>
        ensures { Next self.old.phase self.old (told result frame.new) self.new }
    {
        match &self.phase {
            Phase::Asked(_) => None,
            Phase::Closed(fault) => fault_again(*fault),
            Phase::Refused => fault_again(ConnectionFault::Record(RecordFault::BadHello)),
            Phase::Greeting(_) => self.read(frame),
            Phase::Proving(_, _) => self.read(frame),
            Phase::Open(_) => self.read(frame),
        }
    }

    /// The called answers with its own Hello, whose nonce is to be new, once it knows who calls. Where it refused the
    /// caller's Hello by 122 `BadHello`, or its own is of another version than the caller's, its own is said all the same,
    /// once and without a proof, so that the caller sees why, and the connection is closed by 122. Else nothing happens.
    pub fn answer(&mut self, own: Hello)
        requires { is_coded own.link ≡ true }
        ensures { self.new ≡ answered self.old.phase own self.old }
    {
        if let Phase::Refused = &self.phase {
            self.turn_away(own);
            return;
        }
        let Phase::Asked(caller) = &self.phase else {
            return;
        };
        let caller = *caller;
        if caller.version.is_same(own.version) {
            self.meet(caller, own);
        } else {
            self.turn_away(own);
        }
    }

    /// Both Hellos are said: the own and its proof are to be written, and the caller's proof is awaited.
    fn meet(&mut self, caller: Hello, own: Hello)
        ensures { self.new ≡ met caller own self.old }
    {
        let hellos = Hellos {
            caller,
            called: own,
        };
        let theirs = hellos.proof(&self.key, Role::Caller);
        let ways = ways_of(&self.key, Role::Called, Role::Caller, &hellos);
        let proof = hellos.proof(&self.key, Role::Called);
        self.phase = Phase::Proving(theirs, ways);
        self.out.hello = Some(own);
        self.out.proof = Some(proof);
    }

    /// The own Hello is said alone, once.
    fn turn_away(&mut self, own: Hello)
        ensures { self.new ≡ turned_away own self.old }
    {
        self.phase = Phase::Closed(ConnectionFault::Record(RecordFault::BadHello));
        self.out.hello = Some(own);
    }

    /// This beat is to be said next, in place of one that isn't begun yet.
    pub fn tell_beat(&mut self, beat: Beat)
        ensures { self.new ≡ record self.old { out = record self.old.out { beat = Some beat } } }
    {
        self.out.beat = Some(beat);
    }

    /// This frame is to be said next, unless one waits already: then it is given back. What waits when a fault closes the
    /// connection is never said.
    pub fn put_frame(&mut self, frame: Frame) -> Option<Frame>
        requires { LEAST_FRAME ≤ length frame.bytes.items }
        ensures out { Put self.old.out.frame frame self.old.out self.new.out result }
        ensures others { self.new ≡ record self.old { out = self.new.out } }
    {
        self.out.put_frame(frame)
    }

    /// Whether a record of this further kind is taken now.
    fn takes_more(&self, kind: u8) -> bool
        ensures { result ≡ takes_more self.now.phase self.now.out.more kind }
    {
        match &self.phase {
            Phase::Open(ways) => match &self.out.more {
                None => match ways.writing.version() {
                    Version::First => false,
                    Version::Second => is_more(kind),
                },
                Some(_) => false,
            },
            Phase::Greeting(_) => false,
            Phase::Asked(_) => false,
            Phase::Refused => false,
            Phase::Proving(_, _) => false,
            Phase::Closed(_) => false,
        }
    }

    /// This record of a further kind is to be said next, behind the beat and before the frame; whether it is taken. It is
    /// only on an open connection of the second version, where none waits already; and not where its byte tells no further
    /// kind.
    pub fn put_more(&mut self, more: More) -> bool
        ensures taken { result ≡ takes_more self.old.phase self.old.out.more more.kind }
        ensures put { self.new ≡ with_more result more self.old }
    {
        if !self.takes_more(more.kind) {
            return false;
        }
        self.out.more = Some(more);
        true
    }

    /// Codes and begins what waits, if the connection is open.
    fn begin_coded(&mut self)
        ensures { self.new ≡ begun_coded self.old.phase self.old.key self.old.came self.old.out }
    {
        if let Phase::Open(ways) = &mut self.phase {
            self.out.begin_coded(&mut ways.writing);
        }
    }

    /// Begins this side's own Hello.
    fn begin_hello(&mut self, hello: Hello)
        ensures { self.new ≡ record self.old { out = with_begun (record_text (record_of.Hello hello)) (record self.old.out { hello = None }) } }
    {
        self.out.hello = None;
        self.out.start(record_bytes(&Record::Hello(hello)));
    }

    /// Begins this side's own proof.
    fn begin_proof(&mut self, proof: Proof)
        ensures { self.new ≡ record self.old { out = with_begun (record_text (record_of.Proof proof)) (record self.old.out { proof = None }) } }
    {
        self.out.proof = None;
        self.out.start(record_bytes(&Record::Proof(proof)));
    }

    /// Begins what is to be said first.
    fn begin_first(&mut self)
        ensures { self.new ≡ begun_first self.old.out.hello self.old.out.proof self.old }
    {
        if let Some(hello) = self.out.hello {
            self.begin_hello(hello);
            return;
        }
        if let Some(proof) = self.out.proof {
            self.begin_proof(proof);
            return;
        }
        self.begin_coded();
    }

    /// Begins the next record, where none is unfinished: this side's own Hello, its own proof, and where the connection
    /// is open the beat, then the record of a further kind and then the frame, coded now. Hello and proof are said also where a fault closed it meanwhile.
    #[tactic(auto, unfolding(crate::specs::Connections::begun_next))]
    pub fn begin(&mut self)
        ensures { self.new ≡ begun_next self.old }
    {
        if !self.out.unwritten().is_empty() {
            return;
        }
        self.begin_first();
    }

    /// Whether a frame is coded at once: the connection is open, a number is left, and nothing else is to be written.
    fn is_free(&self) -> bool
        ensures { result ≡ is_free self.now.phase self.now.out }
    {
        match &self.phase {
            Phase::Open(ways) => ways.writing.has_number() && self.out.is_idle(),
            Phase::Greeting(_) => false,
            Phase::Asked(_) => false,
            Phase::Refused => false,
            Phase::Proving(_, _) => false,
            Phase::Closed(_) => false,
        }
    }

    /// Codes and begins this frame at once.
    fn start_frame(&mut self, frame: &[u8])
        requires most { length frame.now ≤ MOST_FRAME }
        requires free { is_free self.old.phase self.old.out ≡ true }
        ensures { self.new ≡ begun_next (with_frame frame.now self.old) }
    {
        if let Phase::Open(ways) = &mut self.phase {
            self.out.start_frame(&mut ways.writing, frame);
        }
    }

    /// This frame waits, unless one does already.
    fn keep_frame(&mut self, frame: &[u8])
        requires least { LEAST_FRAME ≤ length frame.now }
        requires most { length frame.now ≤ MOST_FRAME }
        ensures { self.new ≡ with_frame frame.now self.old }
    {
        if let Some(frame) = Frame::new(frame) {
            let _ = self.out.put_frame(frame);
        }
    }

    /// This frame is to be said next, unless one waits already, and the next record is begun, where none is unfinished. Where
    /// nothing else is to be written it is coded as it lies.
    pub fn say_frame(&mut self, frame: &[u8])
        requires least { LEAST_FRAME ≤ length frame.now }
        requires most { length frame.now ≤ MOST_FRAME }
        ensures { self.new ≡ begun_next (with_frame frame.now self.old) }
    {
        if self.is_free() {
            self.start_frame(frame);
            return;
        }
        self.keep_frame(frame);
        self.begin();
    }

    /// What of the record that was begun isn't written yet.
    pub fn unwritten(&self) -> &[u8]
        ensures { result.now ≡ unwritten self.now.out }
    {
        self.out.unwritten()
    }

    /// Whether nothing is unfinished, and this side's own Hello doesn't wait: where it has one, that is wholly written.
    pub fn has_said_hello(&self) -> bool
        ensures { result ≡ (length (unwritten self.now.out) == 0 && is_none self.now.out.hello) }
    {
        self.out.unwritten().is_empty() && self.out.hello.is_none()
    }

    /// So many bytes of it are written now.
    pub fn wrote(&mut self, count: usize)
        requires { count ≤ length (unwritten self.old.out) }
        ensures unwritten { unwritten self.new.out ≡ drop count (unwritten self.old.out) }
        ensures others { self.new ≡ record self.old { out = record self.old.out { written = self.new.out.written } } }
    {
        self.out.wrote(count);
    }
}
