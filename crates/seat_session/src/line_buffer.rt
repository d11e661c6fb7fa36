ghost use Rattle.std.specs.Prelude.{◌≡◌, ◌≢◌, ◌+◌, ◌<◌, ◌≤◌, ℕ, List, [], ◌∷◌, ◌++◌, length, MatchOption, OnOk, OnErr, IsTrue, true, false};
ghost use Rattle.seat_session.specs.Feeds.{line_feeds};
ghost use Rattle.seat_session.specs.Lines.{HasNoFeed, Breaks, BeginsWith, text_of};
ghost use Rattle.seat_session.specs.Skipped.{Skips, is_skipped};
ghost use Rattle.seat_session.specs.Front.{IsFrontOf};

use crate::feeds::line_feeds;
use crate::front::Front;
use byte_queue::ByteQueue;
use matchstate::{MOST_LINE, cut};
use std::alloc::{AllocError, Global};
use std::marker::Model;

/// The most bytes that a client's line may have before its line feed, a carriage return counted: as many as the
/// table's own lines.
const LONGEST_LINE: usize = MOST_LINE;

/// Bytes of a stream that come in any pieces and are taken line by line.
///
/// Contracts see the bytes that weren't taken yet, in order, and the room for more.
///
/// The queue stays private, so that bytes leave it as whole lines alone, or all at once; a call that only passes
/// something on to it is there for that.
#[derive(Drop)]
pub(crate) struct LineBuffer {
    queue: ByteQueue,
}

impl Model for LineBuffer {
    ghost use Rattle.byte_queue.specs.Queued.{Queued};

    ghost Value = { Queued };

    ghost view = { λ b. b.queue };
}

impl LineBuffer {
    /// A buffer that nothing came to. It takes no memory.
    pub(crate) fn new(alloc: Global) -> LineBuffer
        ensures { result.waiting ≡ [] }
    {
        LineBuffer {
            queue: ByteQueue::new(alloc),
        }
    }

    /// Takes the next piece of the stream, of any length. An `Err` changes nothing; it comes only where
    /// `reserve` would have to grow the buffer. The queue takes it.
    pub(crate) fn feed(&mut self, piece: &[u8]) -> Result<(), AllocError>
        ensures ok { OnOk result (self.new.waiting ≡ self.old.waiting ++ piece.now) }
        ensures room { self.old.room ≤ self.new.room + length piece.now }
        ensures err { OnErr result (self.new ≡ self.old) }
        ensures full { OnErr result (self.old.room < length piece.now) }
    {
        self.queue.push(piece)
    }

    /// Makes room for so many bytes more, so that `feed_reserved` takes no memory for them. An `Err`
    /// changes nothing. The queue makes it.
    pub(crate) fn reserve(&mut self, more: usize) -> Result<(), AllocError>
        ensures ok { OnOk result (more ≤ self.new.room) }
        ensures waiting { self.new.waiting ≡ self.old.waiting }
        ensures room { self.old.room ≤ self.new.room }
        ensures err { OnErr result (self.new ≡ self.old) }
        ensures full { OnErr result (self.old.room < more) }
    {
        self.queue.reserve(more)
    }

    /// Takes the next piece of the stream into room that was reserved for it. The queue takes it.
    pub(crate) fn feed_reserved(&mut self, piece: &[u8])
        requires { length piece.now ≤ self.old.room }
        ensures waiting { self.new.waiting ≡ self.old.waiting ++ piece.now }
        ensures room { self.old.room ≤ self.new.room + length piece.now }
    {
        self.queue.push_reserved(piece);
    }

    /// How many line feeds stand among the bytes that weren't taken yet.
    pub(crate) fn line_feeds(&self) -> usize
        ensures { result ≡ line_feeds self.now.waiting }
    {
        line_feeds(self.waiting())
    }

    /// What stands at the front of the bytes that weren't taken yet.
    pub(crate) fn front(&self) -> Front<'_>
        ensures { IsFrontOf self.now.waiting result }
    {
        let waiting = self.waiting();
        match first_feed(waiting) {
            Some(place) if place <= LONGEST_LINE => Front::Line(without_return(&waiting[..place])),
            None if waiting.len() <= LONGEST_LINE => Front::Partial,
            _ => Front::TooLong,
        }
    }

    /// Takes all up to the first line feed, and the line feed too. Where none stands there, nothing is taken.
    pub(crate) fn take_line(&mut self)
        ensures taken { (line rest : List ℕ) → Breaks self.old.waiting line rest → self.new.waiting ≡ rest }
        ensures none { HasNoFeed self.old.waiting → self.new.waiting ≡ self.old.waiting }
        ensures room { self.old.room ≤ self.new.room }
    {
        if let Some(place) = first_feed(self.waiting()) {
            self.queue.skip(place + 1);
        }
    }

    /// Takes the lines in front that are skipped: those that begin with `#` or `;`.
    pub(crate) fn skip_lines(&mut self)
        ensures skips { Skips self.old.waiting self.new.waiting }
        ensures counts { (line rest : List ℕ) → BeginsWith self.new.waiting line rest → is_skipped (text_of line) ≡ false }
        ensures room { self.old.room ≤ self.new.room }
    {
        while skipped_in_front(self) {
            self.take_line();
        }
    }

    /// The bytes that weren't taken yet: the queue's.
    fn waiting(&self) -> &[u8]
        ensures { result.now ≡ self.now.waiting }
    {
        self.queue.waiting()
    }

    /// Drops all bytes of the queue.
    pub(crate) fn clear(&mut self)
        ensures waiting { self.new.waiting ≡ [] }
        ensures room { self.old.room ≤ self.new.room }
    {
        self.queue.clear();
    }
}

/// Whether a line that is skipped stands in front.
fn skipped_in_front(lines: &LineBuffer) -> bool
    ensures skipped { IsTrue result → (line : List ℕ) × (rest : List ℕ) × BeginsWith lines.now.waiting line rest × (is_skipped (text_of line) ≡ true) }
    ensures counts { result ≡ false → (line rest : List ℕ) → BeginsWith lines.now.waiting line rest → is_skipped (text_of line) ≡ false }
{
    match lines.front() {
        Front::Line(text) => is_skipped(text),
        Front::Partial => false,
        Front::TooLong => false,
    }
}

/// Whether a line with this text is skipped.
fn is_skipped(text: &[u8]) -> bool
    ensures { result ≡ is_skipped text.now }
{
    matches!(text, [b'#' | b';', ..])
}

/// The place of the first line feed.
fn first_feed(bytes: &[u8]) -> Option<usize>
    ensures { MatchOption result (HasNoFeed bytes.now) (λ place.
        (line rest : List ℕ) × Breaks bytes.now line rest × (length line ≡ place)) }
{
    match cut(bytes, b'\n') {
        Some(parts) => Some(parts.0.len()),
        None => None,
    }
}

/// The line without a carriage return at its end.
fn without_return(line: &[u8]) -> &[u8]
    ensures { result.now ≡ text_of line.now }
{
    match line.split_last() {
        Some((last, text)) if *last == b'\r' => text,
        _ => line,
    }
}
