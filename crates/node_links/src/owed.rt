//! What a peer owes an answer to.

ghost use Rattle.std.specs.Prelude.{◌≡◌, ◌≤◌, None, length};
ghost use Rattle.node_links.specs.Owing.{subject_in, count_in, has_kind, question_in, answered_in, is_answer, is_same_kind, is_asked_by, still_owed, lost_of, asked_by, heard_by, is_open, serves};

use crate::outbox::Outbox;
use byteorder::{BigEndian, ByteOrder};
use paxos_wire::Ballot;

/// The bytes that tell a Prepare and an Accept among frames, by which a node asks.
const PREPARE: u8 = 1;

const ACCEPT: u8 = 4;

/// The bytes that tell a Promise, a Refuse and an Accepted among frames, by which a node answers.
pub(crate) const PROMISE: u8 = 2;

pub(crate) const REFUSE: u8 = 3;

pub(crate) const ACCEPTED: u8 = 5;

/// Where the count of an Accept's commands stands, behind its slot.
const COUNT: usize = 15;

/// By what a node asks: for a promise, or for votes.
#[derive(Clone, Copy, Debug, PartialEq, Eq)]
pub enum Request {
    Prepare,
    /// For its slots up to this one, which isn't among them.
    Accept { behind: u64 },
}

/// What a Prepare or an Accept names, and its answer too.
#[derive(Clone, Copy, Debug, PartialEq, Eq)]
pub struct Subject {
    pub ballot: Ballot,
    /// Its slot, of several the first.
    pub slot: u32,
}

/// What is asked of a peer.
#[derive(Clone, Copy, Debug, PartialEq, Eq)]
pub struct Question {
    pub request: Request,
    pub subject: Subject,
}

/// What a peer owes an answer to: what was asked of it last, and whether that is lost.
///
/// It is, once a connection is open over which it doesn't go: it went over an earlier one, or was dropped. So a node that
/// campaigns need not wait for an answer that can't come.
#[derive(Clone, Copy, Debug, PartialEq, Eq)]
pub struct Owed {
    /// What was asked last, where that isn't answered.
    pub last: Option<Question>,
    /// It was asked before the connection that is open, and doesn't go over it.
    pub unanswered: Option<Question>,
}

/// Whether a frame is of this kind, and has a ballot and a slot.
pub(crate) fn has_kind(frame: &[u8], kind: u8) -> bool
    ensures { result ≡ has_kind frame.now kind }
{
    frame.len() >= 15 && frame[5] == kind
}

/// The ballot and the slot in a frame.
fn subject_in(frame: &[u8]) -> Subject
    requires { 15 ≤ length frame.now }
    ensures { result ≡ subject_in frame.now }
{
    Subject {
        ballot: Ballot {
            round: BigEndian::read_u32(&frame[6..]),
            node: frame[10],
        },
        slot: BigEndian::read_u32(&frame[11..]),
    }
}

/// For how many slots an Accept asks, by the count in a frame of version 2. A node asks by no other.
fn count_in(frame: &[u8]) -> u8
    ensures { result ≡ count_in frame.now }
{
    if frame.len() > COUNT { frame[COUNT] } else { 1 }
}

/// What a frame asks.
fn question_in(frame: &[u8]) -> Option<Question>
    ensures { result ≡ question_in frame.now }
{
    if has_kind(frame, PREPARE) {
        return Some(Question {
            request: Request::Prepare,
            subject: subject_in(frame),
        });
    }
    if !has_kind(frame, ACCEPT) {
        return None;
    }
    let subject = subject_in(frame);
    let behind = u64::from(subject.slot) + u64::from(count_in(frame));
    Some(Question {
        request: Request::Accept { behind },
        subject,
    })
}

/// What a frame answers: that of a Promise, a Refuse or an Accepted.
pub fn answered_in(frame: &[u8]) -> Option<Subject>
    ensures { result ≡ answered_in frame.now }
{
    if has_kind(frame, PROMISE) || has_kind(frame, REFUSE) || has_kind(frame, ACCEPTED) {
        Some(subject_in(frame))
    } else {
        None
    }
}

/// Whether this is the answer of what was asked.
fn is_answer(asked: Option<Question>, answered: Subject) -> bool
    ensures { result ≡ is_answer asked answered }
{
    match asked {
        Some(asked) => {
            let subject = asked.subject;
            subject.ballot.is_same(answered.ballot) && subject.slot == answered.slot
        }
        None => false,
    }
}

/// Whether both ask for promises, or both for votes.
fn is_same_kind(one: Request, other: Request) -> bool
    ensures { result ≡ is_same_kind one other }
{
    matches!(
        (one, other),
        (Request::Prepare, Request::Prepare) | (Request::Accept { .. }, Request::Accept { .. })
    )
}

/// What is still owed over a connection once a request of this kind has gone over it: who asks for votes needs no promise
/// any more.
fn still_owed(unanswered: Option<Question>, request: Request) -> Option<Question>
    ensures { result ≡ still_owed unanswered request }
{
    let question = unanswered?;
    match (question.request, request) {
        (Request::Prepare, Request::Accept { .. }) => None,
        _ => Some(question),
    }
}

impl Question {
    /// Whether a frame asks this.
    pub(crate) fn is_asked_by(self, frame: &[u8]) -> bool
        ensures { result ≡ is_asked_by frame.now self }
    {
        match question_in(frame) {
            Some(asked) => {
                is_same_kind(asked.request, self.request) && is_answer(Some(asked), self.subject)
            }
            None => false,
        }
    }

    /// Whether its answer is of use where this is the front: a promise is, whatever was chosen since it was asked for, since
    /// without a quorum of them the node can't propose; votes only where one of their slots isn't known as chosen.
    fn is_open(self, front: u32) -> bool
        ensures { result ≡ is_open self front }
    {
        match self.request {
            Request::Prepare => true,
            Request::Accept { behind } => u64::from(front) < behind,
        }
    }

    /// Whether its answer would still serve a node that campaigns in the ballot that it has promised, and has this front.
    pub fn serves(self, promised: Option<Ballot>, front: u32) -> bool
        ensures { result ≡ serves self promised front }
    {
        match promised {
            Some(ballot) => ballot.is_same(self.subject.ballot) && self.is_open(front),
            None => false,
        }
    }
}

impl Owed {
    /// Nothing was asked.
    pub fn new() -> Owed
        ensures { result ≡ record { last = None; unanswered = None } }
    {
        Owed {
            last: None,
            unanswered: None,
        }
    }

    /// A frame goes to the peer. A promise isn't owed any more once the node asks for a vote.
    pub fn asked(&mut self, frame: &[u8])
        ensures { self.new ≡ asked_by (question_in frame.now) self.old }
    {
        if let Some(question) = question_in(frame) {
            self.last = Some(question);
            self.unanswered = still_owed(self.unanswered, question.request);
        }
    }

    /// The connection ended.
    pub fn ended(&mut self)
        ensures { self.new ≡ record self.old { unanswered = None } }
    {
        self.unanswered = None;
    }

    /// A connection opened, over which what waits here goes: what was asked last is lost, unless it waits.
    pub fn opened(&mut self, waiting: &Outbox)
        ensures { self.new ≡ record self.old { unanswered = lost_of waiting.now.frames self.old.last } }
    {
        self.unanswered = match self.last {
            Some(question) if !waiting.asks(question) => Some(question),
            _ => None,
        };
    }

    /// A frame came of the peer that answers this (`answered_in`): what was asked last, or another.
    pub fn heard(&mut self, answered: Option<Subject>)
        ensures { self.new ≡ heard_by answered self.old }
    {
        if let Some(answered) = answered {
            if is_answer(self.last, answered) {
                *self = Owed::new();
            }
        }
    }
}
