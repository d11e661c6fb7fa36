//! Which Prepares and Accepts of peers are told, and when: those cost a node syncs, and most other frames cost none.
//!
//! Of each peer only the newest that was read counts. Where it is of no use yet it is set aside, and told once nothing else
//! waits. None is left out because this node's front is behind its slots: its peer may lack what is known here, and need the vote.

ghost use Rattle.std.specs.Prelude.{◌≡◌, ◌≢◌, ◌≤◌, ◌⊎◌, ◌<◌, ◌+◌, ℕ, true, false, slice_get, IfSome, None, Some};
ghost use Rattle.node_links.specs.declared.limits.TheConstants.{NODES as MOST};
ghost use Rattle.node_links.specs.declared.owed.Question.{Question as Asked};
ghost use Rattle.node_links.specs.declared.own.Known.TheVariants.{Two};
ghost use Rattle.node_peers.specs.declared.limits.TheConstants.{HOLD as LONG};
ghost use Rattle.node_peers.specs.declared.notice.Notice.TheVariants as notices;
ghost use Rattle.node_peers.specs.Asking.{IsDue, is_needless, question_at};
ghost use Rattle.node_peers.specs.Hearing.{IsTold};
ghost use Rattle.node_peers.specs.Knowing.{known_of, IsOfOne};
ghost use Rattle.node_peers.specs.Noticing.{IsFrame};
ghost use Rattle.node_peers.specs.Leaving.{FateIs, IsQuiet, KeepsAll, MayBeTold, NeedsNoAnswer, NoneIsNeeded, PassesOne, TakesAside, aside_of, beat_in, newest_of, waits_of};

use crate::aside::{costs_no_sync, is_older, question_in};
use crate::knowing::is_replaced;
use crate::limits::HOLD;
use crate::notice::Notice;
use crate::peers::Peers;
use node_links::limits::{LOOK, NODES};
use node_links::{KeptFrame, Question, Request};
use peer_codes::Beat;

/// What becomes of a notice whose turn has come.
#[derive(Clone, Copy)]
pub(crate) enum Fate {
    /// It is told.
    Told,
    /// It isn't told any more.
    LeftOut,
    /// It is told once nothing else waits.
    SetAside,
}

/// Whether a peer whose last beat is this knows as chosen all for which it asks.
fn is_needless(beat: Option<Beat>, question: Question) -> bool
    ensures { result ≡ is_needless beat question }
{
    match (beat, question.request) {
        (Some(beat), Request::Accept { behind }) => behind <= u64::from(beat.front),
        _ => false,
    }
}

/// A frame that is set aside and may be told now: of which peer, and what it asks.
#[derive(Clone, Copy)]
pub(crate) struct Ready {
    from: u8,
    question: Question,
}

/// Whether one that is set aside is told before another: Prepares are, by falling ballots, so that what they outbid is refused
/// without a sync.
fn is_before(one: Question, other: Question) -> bool {
    match (one.request, other.request) {
        (Request::Prepare, Request::Accept { .. }) => true,
        (Request::Accept { .. }, Request::Prepare) => false,
        _ => is_older(other.subject, one.subject),
    }
}

/// The one of both that is told first.
fn first_of(first: Option<Ready>, next: Option<Ready>) -> Option<Ready>
    ensures one { (result ≡ first) ⊎ (result ≡ next) }
    ensures none { result ≡ None → (first ≡ None) × (next ≡ None) }
{
    match (first, next) {
        (Some(one), Some(other)) => {
            if is_before(other.question, one.question) {
                next
            } else {
                first
            }
        }
        (Some(_), None) => first,
        (None, _) => next,
    }
}

impl Peers {
    ghost use Rattle.node_peers.specs.Peering.{own_of, passed_of, Stays};

    /// Whether a peer has told that it needs no answer to this any more.
    fn is_needless(&self, from: u8, question: Question) -> bool
        ensures { result ≡ is_needless (beat_in (slice_get self.now.peers.items from)) question }
    {
        match self.peers.get(from as usize) {
            Some(peer) => is_needless(peer.beat, question),
            None => false,
        }
    }

    /// Whether more may have come over a peer's connection than was read.
    #[tactic(auto, using(crate::proofs::Leaving::not_read))]
    fn has_unread(&self, from: u8) -> bool
        ensures { result ≡ true → IsQuiet (waits_of self.now) self.now.lines.links.items → ⊥ }
    {
        match self.open_at(from) {
            Some(place) => self.lines.has_unread(place),
            None => false,
        }
    }

    /// Whether anything waits to be told, or more may have come of a peer than was read. What strangers send is no reason to wait.
    #[tactic(auto, using(crate::proofs::Leaving::not_quiet))]
    fn is_busy(&self) -> bool
        ensures { result ≡ true → IsQuiet (waits_of self.now) self.now.lines.links.items → ⊥ }
    {
        if self.lines.waits() {
            return true;
        }
        for number in 0..NODES as u8 {
            if self.has_unread(number) {
                return true;
            }
        }
        false
    }

    /// Whether the newest Prepare or Accept of a peer is set aside: a newer one may be there to be read, an Accept is for a slot
    /// above the front, or a Prepare isn't all that waits.
    fn is_early(&self, from: u8, question: Question) -> bool
        ensures { result ≡ false → IsDue self.now.own_front.front question }
    {
        let waits = match question.request {
            Request::Prepare => self.is_busy() || self.lines.aside.is_any(),
            Request::Accept { .. } => question.subject.slot > self.own_front.front,
        };
        if waits {
            return true;
        }
        self.lines.is_full() || self.has_unread(from)
    }

    /// Whether a frame of a node isn't told at all: two lives of it are known.
    fn is_of_two(&self, from: u8) -> bool
        ensures two { result ≡ true → known_of (own_of self.now) from self.now.peers.items ≡ Two }
        ensures one { result ≡ false → known_of (own_of self.now) from self.now.peers.items ≢ Two }
    {
        let lines = &self.lines;
        is_replaced(&lines.own, from as usize, &self.peers)
    }

    /// What becomes of a frame of a peer.
    fn fate(&self, from: u8, frame: &KeptFrame) -> Fate
        ensures { FateIs result (own_of self.now) self.now.peers.items (newest_of self.now) self.now.own_front.front from frame.now }
    {
        if self.is_of_two(from) {
            return Fate::LeftOut;
        }
        let Some(question) = question_in(frame.as_slice()) else {
            return Fate::Told;
        };
        if self.lines.aside.is_outdated(from, question) {
            return Fate::LeftOut;
        }
        if (from as usize) < NODES && self.is_early(from, question) {
            return Fate::SetAside;
        }
        Fate::Told
    }

    /// Whether a frame of a peer costs the node no sync, where it would be told now.
    fn is_free_frame(&self, from: u8, frame: &KeptFrame) -> Option<bool> {
        match self.fate(from, frame) {
            Fate::Told => Some(costs_no_sync(frame.as_slice())),
            Fate::LeftOut => None,
            Fate::SetAside => None,
        }
    }

    /// Whether a notice costs the node no sync, where it would be told now.
    pub(crate) fn is_free(&self, notice: &Notice) -> Option<bool> {
        match notice {
            Notice::Frame { from, frame } => self.is_free_frame(*from, frame),
            Notice::Joined { .. }
            | Notice::Gone { .. }
            | Notice::Refused { .. }
            | Notice::Unreached { .. }
            | Notice::Strangers { .. }
            | Notice::Settings { .. } => Some(true),
        }
    }

    /// A frame of a peer whose turn has come, where it is told now.
    #[tactic(auto, using(crate::proofs::Handing::handed_stays))]
    fn pass_frame(&mut self, from: u8, frame: KeptFrame) -> Option<Notice>
        requires { IsTold (own_of self.old) (passed_of self.old) (notices.Frame from frame) }
        ensures stays { Stays self.old self.new }
        ensures kept { KeepsAll self.old self.new }
        ensures passes { PassesOne (own_of self.old) self.old.peers.items (newest_of self.old) self.old.own_front.front (notices.Frame from frame) result (aside_of self.old) (aside_of self.new) }
        ensures one { IfSome result (λ told. IsOfOne (own_of self.old) self.old.peers.items told) }
    {
        match self.fate(from, &frame) {
            Fate::Told => Some(Notice::Frame { from, frame }),
            Fate::LeftOut => None,
            Fate::SetAside => {
                self.lines.set_aside(from, frame);
                None
            }
        }
    }

    /// A notice whose turn has come, where it is told now.
    pub(crate) fn pass(&mut self, notice: Notice) -> Option<Notice>
        requires { IsTold (own_of self.old) (passed_of self.old) notice }
        ensures stays { Stays self.old self.new }
        ensures kept { KeepsAll self.old self.new }
        ensures passes { PassesOne (own_of self.old) self.old.peers.items (newest_of self.old) self.old.own_front.front notice result (aside_of self.old) (aside_of self.new) }
        ensures one { IfSome result (λ told. IsOfOne (own_of self.old) self.old.peers.items told) }
    {
        match notice {
            Notice::Frame { from, frame } => self.pass_frame(from, frame),
            Notice::Joined { .. }
            | Notice::Gone { .. }
            | Notice::Refused { .. }
            | Notice::Unreached { .. }
            | Notice::Strangers { .. }
            | Notice::Settings { .. } => Some(notice),
        }
    }

    /// Whether a Prepare or an Accept that is set aside may be told now: an Accept waits for the front to come to its slot, as long as
    /// the front moves.
    fn is_ready(&self, question: Question, now: u64) -> bool
        ensures { self.now.own_front.moved + LONG ≤ now → result ≡ true }
    {
        match question.request {
            Request::Prepare => true,
            Request::Accept { .. } => {
                question.subject.slot <= self.own_front.front
                    || now.saturating_sub(self.own_front.moved) >= HOLD
            }
        }
    }

    /// Whether a Prepare or an Accept of a peer that is set aside is left out: a newer one was read, the peer needs no answer any more,
    /// or two lives of it are known.
    fn is_left_out(&self, from: u8, question: Question) -> bool
        ensures left { result ≡ true → NeedsNoAnswer (own_of self.now) self.now.peers.items (newest_of self.now) from question }
        ensures one { result ≡ false → known_of (own_of self.now) from self.now.peers.items ≢ Two }
    {
        if self.lines.aside.is_outdated(from, question) {
            return true;
        }
        if self.is_needless(from, question) {
            return true;
        }
        self.is_of_two(from)
    }

    /// The frame that is set aside of a peer, where it may be told now.
    fn ready_at(&self, from: u8, now: u64) -> Option<Ready>
        ensures may { IfSome result (MayBeTold (own_of self.now) self.now.peers.items (aside_of self.now)) }
        ensures none { result ≡ None → self.now.own_front.moved + LONG ≤ now → (question : Asked) → question_at (aside_of self.now) from ≡ Some question → NeedsNoAnswer (own_of self.now) self.now.peers.items (newest_of self.now) from question }
    {
        let question = self.lines.aside.question(from)?;
        if self.is_left_out(from, question) {
            return None;
        }
        if self.is_ready(question, now) {
            Some(Ready { from, question })
        } else {
            None
        }
    }

    /// The frame that is told first of those that are set aside and may be told now.
    fn first_aside(&self, now: u64) -> Option<Ready>
        ensures may { IfSome result (MayBeTold (own_of self.now) self.now.peers.items (aside_of self.now)) }
        ensures none { result ≡ None → self.now.own_front.moved + LONG ≤ now → NoneIsNeeded (own_of self.now) self.now.peers.items (newest_of self.now) (aside_of self.now) }
    {
        let mut first = None;
        for number in 0..NODES as u8 {
            first = first_of(first, self.ready_at(number, now));
        }
        first
    }

    /// The next frame that is told of those that are set aside, once nothing else waits and nothing is to be read.
    #[tactic(auto, using(crate::proofs::Handing::handed_stays))]
    pub(crate) fn take_aside(&mut self, now: u64) -> Option<Notice>
        ensures stays { Stays self.old self.new }
        ensures kept { KeepsAll self.old self.new }
        ensures frame { IfSome result IsFrame }
        ensures told { IfSome result (λ notice. IsTold (own_of self.old) (passed_of self.old) notice) }
        ensures one { IfSome result (λ notice. IsOfOne (own_of self.old) self.old.peers.items notice) }
        ensures takes { TakesAside result (aside_of self.old) (aside_of self.new) }
        ensures needed { IsQuiet (waits_of self.old) self.old.lines.links.items → self.old.own_front.moved + LONG ≤ now → result ≡ None → NoneIsNeeded (own_of self.old) self.old.peers.items (newest_of self.old) (aside_of self.old) }
    {
        if self.is_busy() {
            return None;
        }
        let ready = self.first_aside(now)?;
        let frame = self.lines.take_aside(ready.from)?;
        Some(Notice::Frame {
            from: ready.from,
            frame,
        })
    }

    /// How long it is until a frame that is set aside may be told; 0 where one may.
    pub(crate) fn wait_of_aside(&self, now: u64) -> u64 {
        let stood = now.saturating_sub(self.own_front.moved);
        if self.first_aside(now).is_some() {
            0
        } else if self.lines.aside.is_any() && stood < HOLD {
            HOLD - stood
        } else {
            LOOK
        }
    }
}
