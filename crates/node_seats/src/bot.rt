//! Who sits at a seat, and what he is told.

ghost use Rattle.std.specs.Prelude.{◌≡◌, ◌+◌, ◌<◌, ◌≤◌, ◌++◌, max, true, length, OnOk, OnErr, None};
ghost use Rattle.line_cursor.specs.Past.{seat_line_at};
ghost use Rattle.node_seats.specs.Lines.{line_of};
ghost use Rattle.node_seats.specs.declared.limits.TheConstants.{BACKLOG as MOST};
ghost use Rattle.node_seats.specs.Telling.{telling_from, one_more, Told as IsTold, TellsOn, HasAll};
ghost use Rattle.node_seats.specs.Seating.{newcomer, no_bot, names_line, is_here, asks_once, resumes};

use crate::limits::BACKLOG;
use crate::words::{Asked, Words};
use byte_queue::ByteQueue;
use line_cursor::{Cursor, SeatLine};
use node_wires::{Line, Passages};
use slot_log::Table;
use std::alloc::AllocError;

/// What a bot is told behind its last line, before its connection ends.
#[derive(Clone, Copy, Debug, PartialEq, Eq)]
pub enum Parting {
    /// The match is over, and all its lines were told.
    Over,
    /// The line that the bot named is none of its seat, or won't come.
    Other,
    /// Its node can't tell it lines now, since it has no quorum: the bot dials again, this node too.
    Wait,
}

/// The lines that a bot is told.
#[derive(Drop)]
pub(crate) struct Telling {
    /// The place of the first.
    start: Cursor,
    /// The place of the next.
    next: Cursor,
    /// Those that it was told, for clauses alone.
    told: Passages,
}

/// Who sits at a seat, or sat there last.
#[derive(Drop)]
pub(crate) struct Bot {
    pub(crate) sits: bool,
    /// What he said before the version.
    pub(crate) words: Words,
    /// What he is told, once that has begun.
    pub(crate) telling: Option<Telling>,
    /// What he was told behind that.
    pub(crate) parting: Option<Parting>,
}

/// What came of telling a line.
#[derive(Clone, Copy, PartialEq, Eq)]
pub(crate) enum Told {
    /// It was told.
    Line,
    /// There is none yet.
    Nothing,
    /// There is no memory for it.
    Failed,
}

/// Whether a bot that asks so waits for a line.
fn names_line(asked: Asked) -> bool
    ensures { result ≡ names_line asked }
{
    match asked {
        Asked::Nothing | Asked::First | Asked::Newest => false,
        Asked::Line | Asked::Other => true,
    }
}

/// Whether a bot that asks so said once from where on it is to be told.
fn asks_once(asked: Asked) -> bool
    ensures { result ≡ asks_once asked }
{
    match asked {
        Asked::Nothing | Asked::Other => false,
        Asked::First | Asked::Newest | Asked::Line => true,
    }
}

impl Telling {
    /// From this place on; nothing was told yet.
    pub(crate) fn new(start: Cursor) -> Telling
        ensures { result ≡ telling_from start }
    {
        Telling {
            start,
            next: start,
            told: Passages::new(),
        }
    }

    /// The place of the next line.
    pub(crate) fn next(&self) -> Cursor
        ensures { result ≡ self.now.next }
    {
        self.next
    }

    /// This line of the seat was told, and this is the place of the next.
    fn go_on(&mut self, number: u8, line: &[u8], next: Cursor)
        ensures { self.new ≡ one_more number line.now next self.old }
    {
        self.told.wrote(Line::Seat(number), line);
        self.next = next;
    }
}

impl Bot {
    /// Nobody sits there, nor did.
    pub(crate) fn nobody() -> Bot
        ensures { result ≡ no_bot }
    {
        Bot {
            sits: false,
            words: Words::new(),
            telling: None,
            parting: None,
        }
    }

    /// Whether he sits there, and doesn't still wait for the line that he named.
    pub(crate) fn is_here(&self) -> bool
        ensures { result ≡ is_here self.now }
    {
        self.sits && !(names_line(self.words.asked()) && self.telling.is_none())
    }

    /// Whether he said once from where on he is to be told.
    pub(crate) fn has_resumed(&self) -> bool
        ensures { result ≡ resumes self.now }
    {
        asks_once(self.words.asked())
    }

    /// One who was taken in.
    pub(crate) fn new() -> Bot
        ensures { result ≡ newcomer }
    {
        Bot {
            sits: true,
            words: Words::new(),
            telling: None,
            parting: None,
        }
    }
}

/// Puts a line with CR LF behind what waits. An `Err`, for want of memory, changes nothing.
pub(crate) fn put_line(waiting: &mut ByteQueue, line: &[u8]) -> Result<(), AllocError>
    ensures told { OnOk result (waiting.new.waiting ≡ waiting.old.waiting ++ line_of line.now) }
    ensures failed { OnErr result (waiting.new.waiting ≡ waiting.old.waiting) }
{
    waiting.reserve(line.len().saturating_add(2))?;
    waiting.push(line)?;
    waiting.push(b"\r\n")?;
    Ok(())
}

/// Tells the next line of a seat, where the match has come to it. The buffer is for that line.
#[tactic(auto, using(crate::proofs::Telling::line_bound, crate::proofs::Telling::line_grows))]
fn tell_next(
    telling: &mut Telling,
    waiting: &mut ByteQueue,
    line: &mut SeatLine,
    number: u8,
    table: &Table,
) -> Told
    requires { number < table.now.game.players }
    ensures told { IsTold table.now number telling.old telling.new waiting.old.waiting waiting.new.waiting }
    ensures bound { length waiting.new.waiting ≤ length waiting.old.waiting + 4098 }
    ensures grows { result ≡ Told.Line → length waiting.old.waiting < length waiting.new.waiting }
    ensures none { result ≡ Told.Nothing → seat_line_at table.now.game table.now.hands number telling.new.next.hand telling.new.next.actions ≡ None }
{
    let mut next = telling.next();
    if !next.write_next(line, table, number as usize) {
        return Told::Nothing;
    }
    if put_line(waiting, line.as_bytes()).is_err() {
        return Told::Failed;
    }
    telling.go_on(number, line.as_bytes(), next);
    Told::Line
}

/// Tells the lines of a seat, one after another, as far as the match has come and while few bytes wait. False where there is no
/// memory for a line: then that one isn't told. The buffer is for these lines, one at a time.
#[tactic(auto, using(crate::proofs::Telling::tells_nothing, crate::proofs::Telling::tells_more))]
pub(crate) fn tell_lines(
    telling: &mut Telling,
    waiting: &mut ByteQueue,
    line: &mut SeatLine,
    number: u8,
    table: &Table,
) -> bool
    requires { number < table.now.game.players }
    ensures tells { TellsOn table.now number telling.old telling.new waiting.old.waiting waiting.new.waiting }
    ensures bound { length waiting.new.waiting ≤ max (length waiting.old.waiting) (MOST + 4098) }
    ensures all { result ≡ true → HasAll table.now number telling.new waiting.new.waiting }
{
    while waiting.waiting().len() < BACKLOG {
        match tell_next(telling, waiting, line, number, table) {
            Told::Line => {}
            Told::Nothing => return true,
            Told::Failed => return false,
        }
    }
    true
}
