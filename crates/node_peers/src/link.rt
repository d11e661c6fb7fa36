//! The connection of a line.

ghost use Rattle.std.specs.Prelude.{◌≡◌, ◌<◌, true, List, IfSome, Some, None};
ghost use Rattle.node_wires.specs.Passages.{Passage};
ghost use Rattle.node_links.specs.declared.own.Own.{Own};
ghost use Rattle.node_links.specs.Arriving.{told};
ghost use Rattle.node_links.specs.Going.{peer_of};
ghost use Rattle.node_links.specs.Talks.{Talk};
ghost use Rattle.node_links.specs.Waiting.{IsBegun};
ghost use Rattle.node_peers.specs.Lines.{line_at, node_over, dialled_over};
ghost use Rattle.node_peers.specs.Adding.{Grows};
ghost use Rattle.node_peers.specs.Meeting.{IsKnownBy};
ghost use Rattle.node_peers.specs.Hearing.{IsOf, KeepsOn, KeepsAs, KeepsSaying, Moves, OpensIn, TakesIn, SaysFrame};

use crate::limits::{DIALLED, LINKS, PIECES};
use node_links::{Arrived, Connection, Heading, Met, Outbox, Own, PeerFault};
use node_wires::limits::NODES;
use node_wires::{Halt, Line, Passages, Way, Wire};
use paxos_wire::Ballot;
use peer_codes::{Frame, Hello};

/// The connection of a line.
#[derive(Drop)]
pub(crate) struct Link {
    pub(crate) connection: Connection,
    /// When it began.
    pub(crate) began: u64,
    /// The node that its Hello said, once that was judged, whether it was taken or not; with codes it isn't proved before the
    /// other's proof was right.
    pub(crate) said: Option<u8>,
    /// Something came over it.
    pub(crate) has_come: bool,
    /// What came first.
    pub(crate) heading: Heading,
    /// More may have come than was read.
    pub(crate) has_more: bool,
    /// Nothing more comes over it.
    pub(crate) has_ended: bool,
    /// A piece that came was lost for want of memory, so nothing more is heard of it.
    pub(crate) is_lost: bool,
    /// The fault that closed it was told.
    pub(crate) is_refused: bool,
    /// Its node is refused, though the connection is open: nothing more is heard of it.
    pub(crate) is_turned_away: bool,
    /// The ballot that its node is told then, before it ends.
    pub(crate) farewell: Option<Ballot>,
}

/// What became of bytes that were to be written.
#[derive(Clone, Copy)]
pub(crate) enum Written {
    /// Some are written.
    Some,
    /// There were none.
    Nothing,
    /// There is no room for more.
    Later,
    /// The connection ended.
    Ended,
}

impl Link {
    /// A connection that begins.
    pub(crate) fn new(connection: Connection, began: u64) -> Link
        ensures { result.connection ≡ connection }
    {
        Link {
            connection,
            began,
            said: None,
            has_come: false,
            heading: Heading::new(),
            has_more: false,
            has_ended: false,
            is_lost: false,
            is_refused: false,
            is_turned_away: false,
            farewell: None,
        }
    }

    /// Whether nothing more is heard of it: a fault closed it, or its node is refused.
    pub(crate) fn is_closed(&self) -> bool {
        self.is_turned_away || self.connection.fault().is_some()
    }

    /// Who is told to be at the other end where a fault closes the connection: whom this node dialled, who was there, or
    /// who said that he speaks, where his Hello was refused for what he is and not for who.
    pub(crate) fn known(
        &self,
        dialled: Option<u8>,
        joined: Option<u8>,
        fault: PeerFault,
    ) -> Option<u8> {
        if dialled.is_some() {
            return dialled;
        }
        if joined.is_some() {
            return joined;
        }
        match fault {
            PeerFault::StoreReplaced(_) => self.said,
            PeerFault::StoreOlder(_) => self.said,
            PeerFault::AlreadyHere => self.said,
            _ => None,
        }
    }
}

/// The line at a place among those over which nodes speak.
pub(crate) fn line_at(place: usize) -> Line
    requires { place < LINKS }
    ensures { result ≡ line_at place }
{
    if place < DIALLED {
        Line::Peer(place as u8)
    } else {
        Line::Caller((place - DIALLED) as u8)
    }
}

/// The node to which the line at a place leads, of those to peers that are dialled.
fn node_over(place: usize) -> u8
    requires { place < DIALLED }
    ensures { result ≡ node_over place }
{
    if place < NODES {
        place as u8
    } else {
        (place - NODES) as u8
    }
}

/// The peer that this node dialled over the line at a place; none where another dialled.
pub(crate) fn dialled_at(place: usize) -> Option<u8>
    ensures { result ≡ dialled_over (line_at place) }
{
    if place < DIALLED {
        Some(node_over(place))
    } else {
        None
    }
}

/// Takes a piece of what came. Without memory for it nothing more is heard, and nothing more is taken in.
fn take_in(link: &mut Link, piece: &[u8])
    ensures { TakesIn link.old link.new piece.now }
{
    link.has_come = link.has_come || !piece.is_empty();
    link.heading.take(piece);
    if !link.is_lost && link.connection.take(piece).is_ok() {
        return;
    }
    link.is_lost = true;
    link.has_ended = true;
}

/// Reads the next piece that came over a line. It says whether there may be more.
#[tactic(auto, using(crate::proofs::Adding::line_of_peers, crate::proofs::Adding::halted_added, crate::proofs::Adding::one_added, crate::proofs::Fitting::moves_halted, crate::proofs::Fitting::moves_taken))]
fn read_piece<W: Wire>(
    link: &mut Link,
    passed: &mut Passages,
    wire: &mut W,
    place: usize,
    piece: &mut [u8],
) -> bool
    requires { place < LINKS }
    ensures grows { Grows passed.old passed.new (W.passed wire.old) (W.passed wire.new) }
    ensures moves { Moves place (Some link.old) (Some link.new) passed.old.items passed.new.items }
{
    match wire.read(line_at(place), piece) {
        Ok(count) => {
            passed.came(line_at(place), &piece[..count]);
            take_in(link, &piece[..count]);
            !link.has_ended
        }
        Err(halt) => {
            passed.halted(line_at(place), Way::Reading, halt);
            link.has_ended = link.has_ended || halt == Halt::Ended;
            false
        }
    }
}

/// Reads what came over the line at a place, so many pieces at most, each into this buffer. Nothing is read of one that a
/// fault closed, or whose node is refused.
#[tactic(auto, using(crate::proofs::Adding::nothing_added, crate::proofs::Adding::added_on, crate::proofs::Fitting::moves_still, crate::proofs::Fitting::moves_on))]
pub(crate) fn read<W: Wire>(
    link: &mut Link,
    passed: &mut Passages,
    wire: &mut W,
    place: usize,
    piece: &mut [u8],
)
    requires { place < LINKS }
    ensures grows { Grows passed.old passed.new (W.passed wire.old) (W.passed wire.new) }
    ensures moves { Moves place (Some link.old) (Some link.new) passed.old.items passed.new.items }
{
    link.has_more = false;
    if link.has_ended || link.is_closed() {
        return;
    }
    for _ in 0..PIECES {
        if !read_piece(link, passed, wire, place, piece) {
            return;
        }
    }
    link.has_more = true;
}

/// What became of bytes of which so many were written.
fn what_of(count: usize) -> Written {
    if count == 0 {
        Written::Later
    } else {
        Written::Some
    }
}

/// What became of bytes of which none was written, for this reason.
fn halted(halt: Halt) -> Written {
    match halt {
        Halt::Later => Written::Later,
        Halt::Ended => Written::Ended,
    }
}

/// Writes what was begun over the line at a place, as much of it as there is room for.
#[tactic(auto, using(crate::proofs::Adding::line_of_peers, crate::proofs::Adding::nothing_added, crate::proofs::Adding::halted_added, crate::proofs::Adding::one_added, crate::proofs::Fitting::moves_still, crate::proofs::Fitting::moves_halted, crate::proofs::Fitting::moves_written))]
pub(crate) fn write<W: Wire>(
    link: &mut Link,
    passed: &mut Passages,
    wire: &mut W,
    place: usize,
) -> Written
    requires { place < LINKS }
    ensures grows { Grows passed.old passed.new (W.passed wire.old) (W.passed wire.new) }
    ensures moves { Moves place (Some link.old) (Some link.new) passed.old.items passed.new.items }
{
    let bytes = link.connection.unwritten();
    if bytes.is_empty() {
        return Written::Nothing;
    }
    match wire.write(line_at(place), bytes) {
        Ok(count) => {
            passed.wrote(line_at(place), &bytes[..count]);
            link.connection.wrote(count);
            what_of(count)
        }
        Err(halt) => {
            passed.halted(line_at(place), Way::Writing, halt);
            halted(halt)
        }
    }
}

/// What a connection says next, or the fault that closed it; nothing of one of which a piece was lost, and of one whose node is
/// refused. A frame goes into the buffer.
#[tactic(auto, using(crate::proofs::Fitting::keeps_still, crate::proofs::Fitting::keeps_on, crate::proofs::Fitting::says_next))]
pub(crate) fn next_of(link: &mut Link, frame: &mut Frame) -> Option<Result<Arrived, PeerFault>>
    ensures keeps { KeepsOn (Some link.old) (Some link.new) }
    ensures says { SaysFrame (told result frame.new) link.old link.new }
    ensures away { link.old.is_turned_away ≡ true → result ≡ None }
{
    if link.is_lost || link.is_turned_away {
        return None;
    }
    link.connection.next(frame)
}

/// Judges what this node said first, as far as it can be judged now. It answers that Hello where the connection is open by
/// that; not where it has ended.
#[tactic(auto, using(crate::proofs::Fitting::keeps_settled, crate::proofs::Fitting::opens_in, crate::proofs::Meeting::known_by))]
pub(crate) fn settle(
    link: &mut Link,
    own: &Own,
    dialled: Option<u8>,
    met: &[Met],
    from: u8,
) -> Option<Hello>
    ensures fits { (sent : List Passage) (talk : Talk) → talk.dialled ≡ dialled → IsOf own.now sent talk (Some link.old) → IsOf own.now sent talk (Some link.new) }
    ensures opens { OpensIn own.now result (Some link.new) }
    ensures known { IsKnownBy own.now met.now result }
{
    link.said = Some(from);
    let was_open = link.connection.taken().is_some();
    link.connection.settle(own, dialled, met);
    if was_open || link.has_ended || link.is_lost {
        return None;
    }
    link.connection.taken()
}

/// The Hello by which a connection is open, if it is and hasn't ended.
#[tactic(auto, using(crate::proofs::Fitting::opens_in))]
pub(crate) fn taken(link: &Link) -> Option<Hello>
    ensures { (own : Own) → OpensIn own result (Some link.now) }
{
    if !link.is_lost {
        return link.connection.taken();
    }
    None
}

/// Answers the one who dialled with this node's own Hello.
#[tactic(auto, using(crate::proofs::Fitting::keeps_as))]
pub(crate) fn answer(link: &mut Link, own: Hello)
    ensures { KeepsAs own (Some link.old) (Some link.new) }
{
    link.connection.answer(own);
}

/// The node at the other end of a connection that is open.
pub(crate) fn peer_of(link: &Link) -> Option<u8>
    ensures { result ≡ peer_of link.now.connection }
{
    link.connection.peer()
}

/// Begins on a connection what waits next.
#[tactic(auto, using(crate::proofs::Fitting::keeps_saying))]
pub(crate) fn begin(link: &mut Link, waiting: &mut Outbox)
    ensures keeps { KeepsSaying waiting.old.frames (Some link.old) (Some link.new) }
    ensures waiting { IsBegun waiting.old waiting.new }
{
    link.connection.begin(waiting);
}

/// The node at the other end is refused, and told this ballot before the connection ends.
#[tactic(auto, using(crate::proofs::Fitting::keeps_still))]
pub(crate) fn turn_away(link: &mut Link, ballot: Ballot)
    ensures keeps { KeepsOn (Some link.old) (Some link.new) }
    ensures away { link.new.is_turned_away ≡ true }
{
    link.is_turned_away = true;
    link.farewell = Some(ballot);
}

/// What a node that is refused is told last, as far as it waits still.
#[tactic(auto, using(crate::proofs::Fitting::keeps_still))]
pub(crate) fn set_farewell(link: &mut Link, farewell: Option<Ballot>)
    ensures { KeepsOn (Some link.old) (Some link.new) }
{
    link.farewell = farewell;
}

/// The fault that closed a connection is told from now on. False where it was already.
#[tactic(auto, using(crate::proofs::Fitting::keeps_still))]
pub(crate) fn refuse(link: &mut Link) -> bool
    ensures { KeepsOn (Some link.old) (Some link.new) }
{
    let is_new = !link.is_refused;
    link.is_refused = true;
    is_new
}
