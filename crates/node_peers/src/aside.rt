//! The Prepares and Accepts of peers, which cost a node syncs: which of each peer is the newest, and those that are set aside.
//! And which frames cost none.

ghost use Rattle.std.specs.Prelude.{◌≡◌, ℕ, IfOk, None, Some, get_or, set};
ghost use Rattle.node_links.specs.Owing.{question_in};
ghost use Rattle.node_peers.specs.Asking.{is_older, newer_of, marked, is_outdated, is_free, costs_no_sync};

use node_links::limits::NODES;
use node_links::{KeptFrame, Owed, Question, Subject};
use std::alloc::{AllocError, Global};

/// The bytes that tell a Refuse, an Accepted, a Chosen and an Ask among frames: at none of them a node stores anything.
const REFUSE: u8 = 3;

const ACCEPTED: u8 = 5;

const CHOSEN: u8 = 6;

const ASK: u8 = 7;

/// Whether a frame of this kind costs a node no sync.
fn is_free(kind: u8) -> bool
    ensures { result ≡ is_free kind }
{
    kind == REFUSE || kind == ACCEPTED || kind == CHOSEN || kind == ASK
}

/// Whether a frame costs a node no sync.
pub(crate) fn costs_no_sync(frame: &[u8]) -> bool
    ensures { result ≡ costs_no_sync frame.now }
{
    frame.len() > 5 && is_free(frame[5])
}

/// What a frame asks: that of a Prepare or an Accept.
#[tactic(auto, using(crate::proofs::Questions::last_asked))]
pub(crate) fn question_in(frame: &[u8]) -> Option<Question>
    ensures { result ≡ question_in frame.now }
{
    let mut owed = Owed::new();
    owed.asked(frame);
    owed.last
}

/// Whether one was asked before another: by ballot, and then by slot.
pub(crate) fn is_older(one: Subject, other: Subject) -> bool
    ensures { result ≡ is_older one other }
{
    one.ballot.is_below(other.ballot) || one.ballot.is_same(other.ballot) && one.slot < other.slot
}

/// The newer of both.
fn newer_of(newest: Option<Subject>, one: Subject) -> Subject
    ensures { result ≡ newer_of newest one }
{
    match newest {
        Some(other) => { if is_older(one, other) { other } else { one } }
        None => one,
    }
}

/// Of each peer none is set aside.
fn no_frames(alloc: Global) -> Result<Vec<Option<KeptFrame>>, AllocError>
    ensures { IfOk result (λ frames. (number : ℕ) → get_or frames.items number None ≡ None) }
{
    let mut frames = Vec::with_capacity(alloc, NODES)?;
    for _ in 0..NODES {
        frames.push(None)?;
    }
    Ok(frames)
}

/// By peers' numbers, the newest Prepare or Accept that was read of each, and the frame of each that is set aside.
#[derive(Drop)]
pub(crate) struct Aside {
    newest: [Option<Subject>; NODES],
    frames: Vec<Option<KeptFrame>>,
}

impl Aside {
    ghost use Rattle.node_peers.specs.Asking.{question_at};

    /// Nothing was read.
    pub(crate) fn new(alloc: Global) -> Result<Aside, AllocError>
        ensures { IfOk result (λ aside. (number : ℕ) → get_or aside.frames.items number None ≡ None) }
    {
        let frames = no_frames(alloc)?;
        Ok(Aside {
            newest: [None; NODES],
            frames,
        })
    }

    /// The newest Prepare or Accept that was read of a peer.
    fn newest(&self, from: u8) -> Option<Subject>
        ensures { result ≡ get_or self.now.newest from None }
    {
        match self.newest.get(from as usize) {
            Some(newest) => *newest,
            None => None,
        }
    }

    /// A frame of a peer was read, which is its newest Prepare or Accept unless a newer one was, or it is neither.
    #[tactic(auto, using(crate::proofs::Questions::marked_at, crate::proofs::Questions::marked_beyond))]
    pub(crate) fn mark(&mut self, from: u8, frame: &[u8])
        ensures newest { self.new.newest ≡ marked from (question_in frame.now) self.old.newest }
        ensures frames { self.new.frames ≡ self.old.frames }
    {
        let Some(question) = question_in(frame) else {
            return;
        };
        let newer = newer_of(self.newest(from), question.subject);
        let place = from as usize;
        if place < self.newest.len() {
            self.newest[place] = Some(newer);
        }
    }

    /// Whether a newer Prepare or Accept of this peer was read.
    pub(crate) fn is_outdated(&self, from: u8, question: Question) -> bool
        ensures { result ≡ is_outdated (get_or self.now.newest from None) question }
    {
        match self.newest(from) {
            Some(newest) => is_older(question.subject, newest),
            None => false,
        }
    }

    /// What the frame asks that is set aside of this peer, if one is.
    pub(crate) fn question(&self, from: u8) -> Option<Question>
        ensures { result ≡ question_at self.now.frames.items from }
    {
        match self.frames.get(from as usize) {
            Some(Some(frame)) => question_in(frame.as_slice()),
            _ => None,
        }
    }

    /// Whether any is set aside.
    pub(crate) fn is_any(&self) -> bool {
        for frame in &self.frames {
            if frame.is_some() {
                return true;
            }
        }
        false
    }

    /// A frame of this peer is set aside, in place of one that was.
    #[tactic(auto, using(crate::proofs::Questions::set_beyond))]
    pub(crate) fn put(&mut self, from: u8, frame: KeptFrame)
        ensures newest { self.new.newest ≡ self.old.newest }
        ensures frames { self.new.frames.items ≡ set self.old.frames.items from (Some frame) }
    {
        if let Some(place) = self.frames.get_mut(from as usize) {
            *place = Some(frame);
        }
    }

    /// The frame of this peer that is set aside; it is no longer.
    #[tactic(auto, using(crate::proofs::Questions::set_beyond))]
    pub(crate) fn take(&mut self, from: u8) -> Option<KeptFrame>
        ensures newest { self.new.newest ≡ self.old.newest }
        ensures frames { self.new.frames.items ≡ set self.old.frames.items from None }
        ensures taken { result ≡ get_or self.old.frames.items from None }
    {
        match self.frames.get_mut(from as usize) {
            Some(place) => place.take(),
            None => None,
        }
    }
}
