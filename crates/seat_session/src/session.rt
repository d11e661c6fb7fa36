ghost use Rattle.std.specs.Prelude.{◌≡◌, ◌<◌, ◌≤◌, ◌+◌, ℕ, List, length, false, Err, OnOk, OnErr, IfSome, IfOk};
ghost use Rattle.seat_session.specs.Feeds.{line_feeds};
ghost use Rattle.seat_session.specs.Lines.{Breaks};
ghost use Rattle.seat_session.specs.Saying.{SaidFits, IsSaidInRange};
ghost use Rattle.seat_session.specs.Session.{fresh, closed_by, with_piece, after_line, is_ready, is_closed, Answers};

use crate::line_buffer::LineBuffer;
use crate::phase::Phase;
use crate::said::Said;
use crate::saying::said_in_front;
use crate::session_fault::SessionFault;
use slot_log::Table;
use std::alloc::{AllocError, Global};
use std::marker::Model;

/// What comes from one seat over one connection, from its first byte on: the line that names the protocol's
/// version, and then the answers of the game (ACPC protocol 2.0.0).
///
/// Contracts see the seat, what the session waits for, the bytes that no answer took yet, and how many more
/// bytes may come without taking memory.
#[derive(Drop)]
pub struct Session {
    seat: usize,
    phase: Phase,
    lines: LineBuffer,
}

impl Model for Session {
    ghost use Rattle.seat_session.specs.Session.{Conversation};

    ghost Value = { Conversation };

    ghost view = { λ s. record { seat = s.seat; standing = record { phase = s.phase; waiting = s.lines.waiting }; room = s.lines.room } };
}

impl Session {
    /// A session of a seat, counted from 0, before its first byte. It takes no memory yet; what `feed` and
    /// `reserve` take comes from this allocator.
    pub fn new(alloc: Global, seat: usize) -> Session
        ensures seat { result.seat ≡ seat }
        ensures standing { result.standing ≡ fresh }
    {
        Session {
            seat,
            phase: Phase::Greeting,
            lines: LineBuffer::new(alloc),
        }
    }

    /// The seat, counted from 0.
    pub fn seat(&self) -> usize
        ensures { result ≡ self.now.seat }
    {
        self.seat
    }

    /// Whether the version was named and no fault has closed the session since.
    pub fn is_ready(&self) -> bool
        ensures { result ≡ is_ready self.now.standing.phase }
    {
        matches!(self.phase, Phase::Ready)
    }

    /// Whether a fault has closed the session: 80, or 81.
    pub fn is_closed(&self) -> bool
        ensures { result ≡ is_closed self.now.standing.phase }
    {
        matches!(self.phase, Phase::Closed(_))
    }

    /// How many line feeds wait: each answer takes one at least, but for an answer that closes the session. The buffer
    /// counts them; it is private.
    pub fn line_feeds(&self) -> usize
        ensures { result ≡ line_feeds self.now.standing.waiting }
    {
        self.lines.line_feeds()
    }

    /// Takes the next piece of what the seat sends, of any length; a closed session keeps nothing of it.
    /// Once `next` gave `None`, at most 4096 bytes wait ahead of it. An `Err` changes nothing; it comes only
    /// where `reserve` would have to take memory.
    pub fn feed(&mut self, piece: &[u8]) -> Result<(), AllocError>
        ensures ok { OnOk result (self.new.standing ≡ with_piece self.old.standing piece.now) }
        ensures seat { self.new.seat ≡ self.old.seat }
        ensures room { self.old.room ≤ self.new.room + length piece.now }
        ensures err { OnErr result (self.new ≡ self.old) }
        ensures full { OnErr result (self.old.room < length piece.now) }
        ensures open { OnErr result (is_closed self.old.standing.phase ≡ false) }
    {
        if self.is_closed() {
            return Ok(());
        }
        self.lines.feed(piece)
    }

    /// Makes room for so many bytes more, so that `feed_reserved` takes no memory for them. An `Err`
    /// changes nothing. The buffer makes it; it is private.
    pub fn reserve(&mut self, more: usize) -> Result<(), AllocError>
        ensures ok { OnOk result (more ≤ self.new.room) }
        ensures room { self.old.room ≤ self.new.room }
        ensures same { self.new ≡ record self.old { room = self.new.room } }
        ensures err { OnErr result (self.new ≡ self.old) }
        ensures full { OnErr result (self.old.room < more) }
    {
        self.lines.reserve(more)
    }

    /// Takes the next piece of what the seat sends into room that was reserved for it; a closed session
    /// keeps nothing of it.
    pub fn feed_reserved(&mut self, piece: &[u8])
        requires { length piece.now ≤ self.old.room }
        ensures standing { self.new.standing ≡ with_piece self.old.standing piece.now }
        ensures seat { self.new.seat ≡ self.old.seat }
        ensures room { self.old.room ≤ self.new.room + length piece.now }
    {
        if !self.is_closed() {
            self.lines.feed_reserved(piece);
        }
    }

    /// Answers the next line that isn't skipped, by the hands that the table now has; `None` where there is no
    /// whole line yet. Lines that begin with `#` or `;` are skipped. The seat is one of the table's.
    ///
    /// The first line is `Ready` where it names version 2.0, else 80. Every other line is the command of an
    /// allowed action behind the line that the seat has now, sent while it is to act; or the first of these
    /// faults: 82 a line that is no answer in this game, 83 an answer behind another line than the seat has now
    /// (before the first deal every answer is), 84 another seat is to act, or none (as between hands), 85 not
    /// allowed. The command fits the table; its hand is below 10000, its index below 256, and the amount of a raise
    /// at most 2147483647. 4097 bytes without a line feed are 81, whatever they begin with. 80 and 81 close the session,
    /// which answers them from then on.
    pub fn next(&mut self, table: &Table) -> Option<Result<Said, SessionFault>>
        requires { self.old.seat < table.now.game.players }
        ensures answer { Answers table.now.game table.now.hands self.old.seat self.old.standing result self.new.standing }
        ensures fits { IfSome result (λ answer. IfOk answer (λ said. SaidFits table.now said)) }
        ensures range { IfSome result (λ answer. IfOk answer (λ said. IsSaidInRange said)) }
        ensures seat { self.new.seat ≡ self.old.seat }
        ensures room { self.old.room ≤ self.new.room }
    {
        if let Phase::Closed(fault) = self.phase {
            return Some(Err(fault));
        }
        table.limits();
        self.lines.skip_lines();
        let Some(said) = said_in_front(&self.lines, self.phase, self.seat, table) else {
            return None;
        };
        self.go_on(&said);
        Some(said)
    }

    /// Goes on behind the line in front, or closes, by what the line said.
    fn go_on(&mut self, said: &Result<Said, SessionFault>)
        ensures line { (line rest : List ℕ) → Breaks self.old.standing.waiting line rest → self.new.standing ≡ after_line said.now rest }
        ensures too_long { said.now ≡ Err SessionFault.LineTooLong → self.new.standing ≡ closed_by SessionFault.LineTooLong }
        ensures seat { self.new.seat ≡ self.old.seat }
        ensures room { self.old.room ≤ self.new.room }
    {
        match said {
            Err(fault) if fault.closes() => {
                self.phase = Phase::Closed(*fault);
                self.lines.clear();
            }
            _ => {
                self.phase = Phase::Ready;
                self.lines.take_line();
            }
        }
    }
}
