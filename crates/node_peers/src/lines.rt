//! The connections over which nodes speak, by the places of their lines, and what is told of them.

ghost use Rattle.std.specs.Prelude.{◌≡◌, ◌⊎◌, ◌<◌, ◌+◌, ◌++◌, ◌∷◌, [], nat_le, true, length, get_or, set, IfOk, IfSome, None, Some};
ghost use Rattle.node_peers.specs.declared.limits.TheConstants.{BACKLOG as MOST};
ghost use Rattle.node_peers.specs.declared.notice.Notice.TheVariants as notices;
ghost use Rattle.node_wires.specs.Passages.{Began, Wrote};
ghost use Rattle.node_wires.specs.declared.line.Line.TheVariants.{Peer, Caller};
ghost use Rattle.node_links.specs.Going.{IsOfKey};
ghost use Rattle.node_links.specs.Owing.{question_in};
ghost use Rattle.node_links.specs.Waiting.{IsBegun};
ghost use Rattle.node_peers.specs.Asking.{marked, unread_in};
ghost use Rattle.node_peers.specs.Greeting.{IsOurs};
ghost use Rattle.node_peers.specs.Handing.{AreFor, peer_at};
ghost use Rattle.node_peers.specs.Lines.{line_at};
ghost use Rattle.node_peers.specs.Meeting.{IsKnownBy};
ghost use Rattle.node_peers.specs.Noticing.{heard_of, heard_by};
ghost use Rattle.node_peers.specs.Hearing.{Fits, fits_prop, IsTold, AreTold, are_told_prop, IsAside, AreAside, are_aside_prop, IsFresh, IsOpened};

use crate::aside::Aside;
use crate::limits::{BACKLOG, DIALLED, LINKS, PIECE};
use crate::link::{Link, Written, line_at};
use crate::links::{
    answer_at, begin_at, clear, next_at, no_links, peer_in, put, read_at, refuse_at,
    set_farewell_at, settle_at, taken_at, turn_away_at, write_at,
};
use crate::notice::Notice;
use crate::saying::Saying;
use arrayvec::ArrayVec;
use node_links::{
    Connection, Further, KeptFrame, Met, Outbox, Own, PeerFault, Settings, Subject, answered_in,
};
use node_wires::{Line, Passages, Wire};
use paxos_wire::Ballot;
use peer_codes::{Beat, Frame, Hello, Life};
use std::alloc::{AllocError, Global};
use std::collections::VecDeque;
use std::net::IpAddr;

/// The connections over which nodes speak, by the places of their lines, and what waits to be told of them.
#[derive(Drop)]
pub(crate) struct Lines {
    alloc: Global,
    pub(crate) own: Own,
    links: Vec<Option<Link>>,
    /// The piece that was read last, and the frame that came last: each is taken in before the next.
    piece: Vec<u8>,
    frame: Frame,
    pub(crate) notices: VecDeque<Notice>,
    /// The Prepares and Accepts that are told once nothing else waits.
    pub(crate) aside: Aside,
    /// How many who dialled left, were let go of or made room before they were there, and no fault of theirs is told.
    pub(crate) unheard: u64,
    /// How many who dialled were taken in.
    pub(crate) callers: u64,
    /// What passed over these lines, which frames were handed to the peers, and what was told of them, for clauses alone.
    passed: Passages,
    sent: Passages,
    heard: Passages,
    ghost fits: { Fits own sent.items passed.items links.items } by { fits_prop own sent.items passed.items links.items },
    ghost told: { AreTold own passed.items notices.items } by { are_told_prop own passed.items notices.items },
    ghost late: { AreAside own passed.items aside.frames.items } by { are_aside_prop own passed.items aside.frames.items },
}

/// What came over a connection.
#[derive(Drop)]
pub(crate) enum Came {
    /// The other's Hello.
    Hello(Hello),
    /// That this Hello is proved.
    Proved(Hello),
    /// A frame of this peer, which waits to be told, and what it answers.
    Frame { from: u8, answered: Option<Subject> },
    /// How this peer is.
    Beat { from: u8, beat: Beat },
    /// What a record of a further kind of this peer tells.
    Further { from: u8, further: Further },
    /// Something over a connection by which no peer is there any more.
    Nothing,
}

/// Puts down what a notice tells: a frame, or that a peer is there whose life is to be kept.
fn note_told(notice: &Notice, heard: &mut Passages)
    ensures { heard.new.items ≡ heard.old.items ++ heard_of notice.now }
{
    match notice {
        Notice::Frame { from, frame } => heard.came(Line::Peer(*from), frame.as_slice()),
        Notice::Joined { peer, life } => match life {
            Some(_) => heard.began(Line::Peer(*peer)),
            None => (),
        },
        Notice::Gone { .. }
        | Notice::Refused { .. }
        | Notice::Unreached { .. }
        | Notice::Strangers { .. }
        | Notice::Settings { .. } => (),
    }
}

/// The same of what is told next.
fn note_next(notice: &Option<Notice>, heard: &mut Passages)
    ensures { heard.new.items ≡ heard.old.items ++ heard_by notice.now }
{
    match notice {
        Some(notice) => note_told(notice, heard),
        None => (),
    }
}

/// The place of the line of the caller of this number.
fn caller_place(number: u8) -> usize
    ensures { result ≡ DIALLED + number }
{
    DIALLED + number as usize
}

impl Lines {
    ghost use Rattle.node_peers.specs.Growing.{Grew, IsSilent, Keeps, Stays};

    /// No connection is there, and nothing passed.
    pub(crate) fn new(alloc: Global, own: Own) -> Result<Lines, AllocError>
        ensures own { IfOk result (λ lines. lines.own ≡ own) }
        ensures passed { IfOk result (λ lines. lines.passed.items ≡ []) }
        ensures sent { IfOk result (λ lines. lines.sent.items ≡ []) }
        ensures heard { IfOk result (λ lines. lines.heard.items ≡ []) }
    {
        let links = no_links(alloc)?;
        let piece = vec![in alloc; 0; PIECE]?;
        let notices = VecDeque::new(alloc);
        let aside = Aside::new(alloc)?;
        let passed = Passages::new();
        Ok(Lines {
            alloc,
            own,
            links,
            piece,
            frame: Frame {
                bytes: ArrayVec::new(),
            },
            notices,
            aside,
            unheard: 0,
            callers: 0,
            passed,
            sent: Passages::new(),
            heard: Passages::new(),
        })
    }

    /// What waits to be told next; it waits no longer, and isn't told yet. A frame is one that came over a line, behind the
    /// Hello of that node.
    pub(crate) fn pop(&mut self) -> Option<Notice>
        ensures stays { Stays self.old self.new }
        ensures aside { self.new.aside ≡ self.old.aside }
        ensures next { IfSome result (λ notice. self.old.notices.items ≡ notice ∷ self.new.notices.items) }
        ensures none { result ≡ None → (self.old.notices.items ≡ []) × (self.new.notices.items ≡ []) }
        ensures told { IfSome result (λ notice. IsTold self.old.own self.old.passed.items notice) }
    {
        self.notices.pop_front()
    }

    /// This is told now, if anything is.
    pub(crate) fn note_told(&mut self, notice: &Option<Notice>)
        ensures keeps { Keeps self.old self.new }
        ensures notices { self.new.notices.items ≡ self.old.notices.items }
        ensures aside { self.new.aside ≡ self.old.aside }
        ensures sent { self.new.sent ≡ self.old.sent }
        ensures heard { self.new.heard.items ≡ self.old.heard.items ++ heard_by notice.now }
    {
        note_next(notice, &mut self.heard);
    }

    /// A frame is handed to this peer.
    pub(crate) fn note_sent(&mut self, to: u8, frame: &[u8])
        ensures keeps { Keeps self.old self.new }
        ensures sent { self.new.sent.items ≡ self.old.sent.items ++ Wrote (Peer to) frame.now ∷ [] }
        ensures heard { self.new.heard ≡ self.old.heard }
    {
        self.sent.wrote(Line::Peer(to), frame);
    }

    /// Whether so much waits to be told that nothing more is read.
    pub(crate) fn is_full(&self) -> bool
        ensures { result ≡ nat_le MOST (length self.now.notices.items) }
    {
        self.notices.len() >= BACKLOG
    }

    /// Whether anything waits to be told.
    pub(crate) fn waits(&self) -> bool
        ensures { result ≡ true → self.now.notices.items ≡ [] → ⊥ }
    {
        !self.notices.is_empty()
    }

    /// Whether anything waits to be told, or may be there to be read.
    pub(crate) fn has_more(&self) -> bool {
        if self.waits() {
            return true;
        }
        for link in &self.links {
            if let Some(link) = link {
                if link.has_more {
                    return true;
                }
            }
        }
        false
    }

    /// Whether more may have come over the line at a place than was read.
    pub(crate) fn has_unread(&self, place: usize) -> bool
        ensures { result ≡ unread_in (get_or self.now.links.items place None) }
    {
        match self.links.get(place) {
            Some(Some(link)) => link.has_more,
            _ => false,
        }
    }

    /// A frame of this node that waited is set aside, in place of one that was.
    pub(crate) fn set_aside(&mut self, from: u8, frame: KeptFrame)
        requires { IsTold self.old.own self.old.passed.items (notices.Frame from frame) }
        ensures stays { Stays self.old self.new }
        ensures notices { self.new.notices.items ≡ self.old.notices.items }
        ensures newest { self.new.aside.newest ≡ self.old.aside.newest }
        ensures frames { self.new.aside.frames.items ≡ set self.old.aside.frames.items from (Some frame) }
    {
        self.aside.put(from, frame);
    }

    /// The frame of this node that is set aside; it is no longer, and isn't told yet.
    pub(crate) fn take_aside(&mut self, from: u8) -> Option<KeptFrame>
        ensures stays { Stays self.old self.new }
        ensures notices { self.new.notices.items ≡ self.old.notices.items }
        ensures newest { self.new.aside.newest ≡ self.old.aside.newest }
        ensures taken { result ≡ get_or self.old.aside.frames.items from None }
        ensures frames { self.new.aside.frames.items ≡ set self.old.aside.frames.items from None }
        ensures told { IfSome result (λ frame. IsTold self.old.own self.old.passed.items (notices.Frame from frame)) }
    {
        self.aside.take(from)
    }

    /// Puts a notice behind the others. False without memory: then it is lost.
    #[tactic(auto, using(crate::proofs::Fitting::one_told))]
    fn note(&mut self, notice: Notice) -> bool
        requires { IsTold self.old.own self.old.passed.items notice }
        ensures stays { Stays self.old self.new }
        ensures aside { self.new.aside ≡ self.old.aside }
        ensures frame { self.new.frame ≡ self.old.frame }
        ensures waits { result ≡ true → self.new.notices.items ≡ self.old.notices.items ++ notice ∷ [] }
    {
        self.notices.push_back(notice).is_ok()
    }

    /// Tells that a peer is there, whose Hello opened a connection, and the life of its store, where that is to be kept. False
    /// without memory.
    #[tactic(auto, using(crate::proofs::Fitting::joins))]
    pub(crate) fn note_joined(&mut self, hello: &Hello, life: Option<Life>) -> bool
        requires opened { IsOpened self.old.own self.old.passed.items hello.now }
        requires life { IfSome life (λ l. l ≡ hello.now.life) }
        ensures stays { Stays self.old self.new }
        ensures waits { result ≡ true → self.new.notices.items ≡ self.old.notices.items ++ notices.Joined hello.now.ends.from life ∷ [] }
    {
        self.note(Notice::Joined {
            peer: hello.ends.from,
            life,
        })
    }

    /// Tells that a peer is gone.
    pub(crate) fn note_gone(&mut self, peer: u8)
        ensures { Stays self.old self.new }
    {
        let _ = self.note(Notice::Gone { peer });
    }

    /// Tells by which fault a connection to a peer is closed.
    pub(crate) fn note_refused(&mut self, peer: u8, fault: PeerFault, source: Option<IpAddr>)
        ensures { Stays self.old self.new }
    {
        let _ = self.note(Notice::Refused {
            peer,
            fault,
            source,
        });
    }

    /// Tells that dials of a peer come to nothing.
    pub(crate) fn note_unreached(&mut self, peer: u8, refuses: bool)
        ensures { Stays self.old self.new }
    {
        let _ = self.note(Notice::Unreached { peer, refuses });
    }

    /// Tells how many callers from addresses of this peer, or from others, were refused.
    pub(crate) fn note_strangers(&mut self, peer: Option<u8>, count: u32, fault: PeerFault)
        ensures { Stays self.old self.new }
    {
        let _ = self.note(Notice::Strangers { peer, count, fault });
    }

    /// Tells the settings of a peer's process.
    pub(crate) fn note_settings(&mut self, peer: u8, settings: Settings)
        ensures { Stays self.old self.new }
    {
        let _ = self.note(Notice::Settings { peer, settings });
    }

    /// A connection began at a place.
    #[tactic(auto, using(crate::proofs::Fitting::are_told_on))]
    fn begin(&mut self, place: usize, line: Line, link: Link)
        requires line { line ≡ line_at place }
        requires fresh { IsFresh self.old.own line (Some link) }
        ensures own { self.new.own ≡ self.old.own }
        ensures silent { IsSilent self.old self.new }
        ensures passed { self.new.passed.items ≡ self.old.passed.items ++ Began line ∷ [] }
    {
        self.passed.began(line);
        put(&mut self.links, place, link);
    }

    /// The connection of one who dialled begins. Apart from `accept`, since it makes room for a connection at its entry.
    #[tactic(auto, using(crate::proofs::Fitting::caller_line, crate::proofs::Fitting::fresh_caller))]
    fn listen(&mut self, number: u8, now: u64)
        ensures own { self.new.own ≡ self.old.own }
        ensures silent { IsSilent self.old self.new }
        ensures passed { self.new.passed.items ≡ self.old.passed.items ++ Began (Caller number) ∷ [] }
    {
        let place = caller_place(number);
        self.count_unheard(place);
        let link = Link::new(Connection::listen(self.alloc, self.own.key), now);
        self.begin(place, Line::Caller(number), link);
    }

    /// Takes in the next one who dialled, if there is one, and answers the place of his line.
    #[tactic(auto, using(crate::proofs::Adding::one_added, crate::proofs::Growing::stayed))]
    pub(crate) fn accept<W: Wire>(&mut self, wire: &mut W, now: u64) -> Option<usize>
        ensures { Grew self.old self.new (W.passed wire.old) (W.passed wire.new) }
    {
        let number = wire.accept()?;
        self.listen(number, now);
        self.count_caller();
        Some(caller_place(number))
    }

    /// One more who dialled is taken in.
    fn count_caller(&mut self)
        ensures { self.new ≡ record self.old { callers = self.new.callers } }
    {
        self.callers = self.callers.saturating_add(1);
    }

    /// Who dialled at a place leaves, or makes room: where he wasn't there yet, and no fault of his is told, he is counted.
    fn count_unheard(&mut self, place: usize)
        ensures { self.new ≡ record self.old { unheard = self.new.unheard } }
    {
        if place >= DIALLED && self.is_unheard(place) {
            self.unheard = self.unheard.saturating_add(1);
        }
    }

    /// Whether a connection is at a place over which nobody is there yet, and no fault of it is told.
    fn is_unheard(&self, place: usize) -> bool {
        match self.at(place) {
            Some(link) => !link.is_refused && link.connection.taken().is_none(),
            None => false,
        }
    }

    /// Dials a peer over the line at a place, to which this is said first. False where that failed.
    #[tactic(auto, using(crate::proofs::Adding::one_added, crate::proofs::Growing::stayed, crate::proofs::Fitting::peer_line, crate::proofs::Fitting::fresh_dialled))]
    pub(crate) fn dial<W: Wire>(&mut self, wire: &mut W, place: usize, own: Hello, now: u64) -> bool
        requires key { IsOfKey self.old.own.key own.link }
        requires ours { IsOurs self.old.own own }
        ensures { Grew self.old self.new (W.passed wire.old) (W.passed wire.new) }
    {
        if place >= DIALLED || wire.dial(place as u8).is_err() {
            return false;
        }
        let link = Link::new(Connection::call(self.alloc, self.own.key, own), now);
        self.begin(place, Line::Peer(place as u8), link);
        true
    }

    /// Reads what came over the line at a place.
    #[tactic(auto, using(crate::proofs::Growing::stayed, crate::proofs::Fitting::are_told_through))]
    pub(crate) fn read<W: Wire>(&mut self, wire: &mut W, place: usize)
        requires { place < LINKS }
        ensures { Grew self.old self.new (W.passed wire.old) (W.passed wire.new) }
    {
        read_at(
            &mut self.links,
            &mut self.passed,
            wire,
            place,
            &mut self.piece,
        );
    }

    /// Writes what was begun at a place.
    #[tactic(auto, using(crate::proofs::Growing::stayed, crate::proofs::Fitting::are_told_through))]
    pub(crate) fn write<W: Wire>(&mut self, wire: &mut W, place: usize) -> Written
        requires { place < LINKS }
        ensures { Grew self.old self.new (W.passed wire.old) (W.passed wire.new) }
    {
        write_at(&mut self.links, &mut self.passed, wire, place)
    }

    /// The frame that came last, of this node, waits to be told, and is its newest Prepare or Accept unless a newer one came. Without
    /// memory it is lost.
    fn note_frame(&mut self, from: u8)
        requires { IsTold self.old.own self.old.passed.items (notices.Frame from self.old.frame) }
        ensures stays { Stays self.old self.new }
        ensures marks { (self.new.aside.newest ≡ self.old.aside.newest) ⊎ ((self.new.aside.newest ≡ marked from (question_in self.old.frame.bytes.items) self.old.aside.newest) × (self.new.notices.items ≡ self.old.notices.items ++ notices.Frame from self.old.frame ∷ [])) }
    {
        let Ok(frame) = KeptFrame::new(self.alloc, self.frame.bytes.as_slice()) else {
            return;
        };
        if self.note(Notice::Frame { from, frame }) {
            self.aside.mark(from, self.frame.bytes.as_slice());
        }
    }

    /// What the connection at a place says next, or the fault that closed it. A frame waits to be told from then on; without
    /// memory it is lost, as one on the way may be.
    #[tactic(auto, using(crate::proofs::Fitting::told_now))]
    pub(crate) fn next(&mut self, place: usize) -> Option<Result<Came, PeerFault>>
        ensures { Stays self.old self.new }
    {
        match next_at(&mut self.links, place, &mut self.frame) {
            Saying::Waits => None,
            Saying::Fault(fault) => Some(Err(fault)),
            Saying::Hello(hello) => Some(Ok(Came::Hello(hello))),
            Saying::Proved(hello) => Some(Ok(Came::Proved(hello))),
            Saying::Frame { from } => {
                let answered = answered_in(self.frame.bytes.as_slice());
                self.note_frame(from);
                Some(Ok(Came::Frame { from, answered }))
            }
            Saying::Beat { from, beat } => Some(Ok(Came::Beat { from, beat })),
            Saying::Further { from, further } => Some(Ok(Came::Further { from, further })),
            Saying::Nothing => Some(Ok(Came::Nothing)),
        }
    }

    /// Judges what the node of this number said first over the line at a place, as far as it can be judged now. It answers
    /// that Hello where the connection is open; not where it has ended.
    #[tactic(auto, using(crate::proofs::Fitting::opened_now))]
    pub(crate) fn settle(&mut self, place: usize, met: &[Met], from: u8) -> Option<Hello>
        ensures stays { Stays self.old self.new }
        ensures opened { IfSome result (λ hello. IsOpened self.new.own self.new.passed.items hello) }
        ensures known { IsKnownBy self.old.own met.now result }
    {
        let own = self.own;
        settle_at(&mut self.links, place, &own, met, from)
    }

    /// The Hello by which the connection at a place is open, if it is.
    pub(crate) fn taken_at(&self, place: usize) -> Option<Hello>
        ensures { IfSome result (λ hello. IsOpened self.now.own self.now.passed.items hello) }
    {
        taken_at(&self.links, place)
    }

    /// Answers the one who dialled at a place with this node's own Hello.
    pub(crate) fn answer(&mut self, place: usize, own: Hello)
        requires { IsOurs self.old.own own }
        ensures { Stays self.old self.new }
    {
        answer_at(&mut self.links, place, own);
    }

    /// Begins the next record at a place, of what waits for the peer that is there, if one is.
    pub(crate) fn say(&mut self, place: usize, waiting: &mut Outbox)
        requires { AreFor (peer_at self.old.links.items place) self.old.sent.items waiting.old.frames }
        ensures stays { Stays self.old self.new }
        ensures waiting { IsBegun waiting.old waiting.new }
    {
        begin_at(&mut self.links, place, waiting);
    }

    /// The node at the other end of the connection at a place is refused, and told this ballot before it ends.
    pub(crate) fn turn_away(&mut self, place: usize, ballot: Ballot)
        ensures { Stays self.old self.new }
    {
        turn_away_at(&mut self.links, place, ballot);
    }

    /// What a node that is refused is told last at a place, as far as it waits still.
    fn set_farewell(&mut self, place: usize, farewell: Option<Ballot>)
        ensures { Stays self.old self.new }
    {
        set_farewell_at(&mut self.links, place, farewell);
    }

    /// What is told last at a place to a node that is refused.
    fn farewell_at(&self, place: usize) -> Option<Ballot> {
        self.at(place)?.farewell
    }

    /// Begins at a place what is said before a peer is there, or to one that is refused.
    pub(crate) fn say_first(&mut self, place: usize)
        ensures { Stays self.old self.new }
    {
        match self.farewell_at(place) {
            Some(ballot) => self.say_last(place, ballot),
            None => self.say_nothing(place),
        }
    }

    /// Begins at a place what is said before a peer is there.
    #[tactic(auto, using(crate::proofs::Handing::none_for))]
    fn say_nothing(&mut self, place: usize)
        ensures { Stays self.old self.new }
    {
        let mut nothing = Outbox::new(self.alloc);
        self.say(place, &mut nothing);
    }

    /// Begins at a place what is said to one that is refused: this ballot last.
    #[tactic(auto, using(crate::proofs::Handing::none_for))]
    fn say_last(&mut self, place: usize, ballot: Ballot)
        ensures { Stays self.old self.new }
    {
        let mut last = Outbox::new(self.alloc);
        last.tell_promised(ballot);
        self.say(place, &mut last);
        self.set_farewell(place, last.promised());
    }

    /// The node at the other end of the connection at a place, once it is open.
    fn peer_at(&self, place: usize) -> Option<u8>
        ensures { result ≡ peer_at self.now.links.items place }
    {
        match self.links.get(place) {
            Some(slot) => peer_in(slot),
            None => None,
        }
    }

    /// Whether the connection at a place is open and this node is at its other end.
    pub(crate) fn is_at(&self, place: usize, number: u8) -> bool
        ensures { result ≡ true → peer_at self.now.links.items place ≡ Some number }
    {
        match self.peer_at(place) {
            Some(there) => there == number,
            None => false,
        }
    }

    /// Closes the connection at a place.
    #[tactic(auto, using(crate::proofs::Adding::line_of_peers, crate::proofs::Adding::one_added, crate::proofs::Growing::stayed))]
    pub(crate) fn close<W: Wire>(&mut self, wire: &mut W, place: usize)
        requires { place < LINKS }
        ensures { Grew self.old self.new (W.passed wire.old) (W.passed wire.new) }
    {
        self.count_unheard(place);
        clear(&mut self.links, place);
        wire.close(line_at(place));
        self.passed.closed(line_at(place));
    }

    /// The fault at a place is told from now on. False where it was already, or no connection is there.
    pub(crate) fn refuse(&mut self, place: usize) -> bool
        ensures { Stays self.old self.new }
    {
        refuse_at(&mut self.links, place)
    }

    /// The connection at a place.
    pub(crate) fn at(&self, place: usize) -> Option<&Link> {
        match self.links.get(place) {
            Some(Some(link)) => Some(link),
            _ => None,
        }
    }
}
