//! The connections of lines over TCP, and who makes room for whom.

ghost use Rattle.std.specs.Prelude.{◌≡◌, ◌≢◌, ◌≤◌, ◌<◌, ℕ, length, slice_get, slice_set, Some, IfOk, OnErr, IfSome, IsNone};
ghost use Rattle.node_wires.specs.Sending.{IsSent, IsSentAt, AllSent};
ghost use Rattle.node_wires.specs.Lines.{place_of};
ghost use Rattle.node_wires.specs.declared.wired.Wired.{Wired};

use crate::comer::Comer;
use crate::coming::Stander;
use crate::halt::Halt;
use crate::keep_alive::{keep_alive, send_again_soon};
use crate::limits::LINES;
use crate::line::Line;
use crate::nodes::Nodes;
use crate::wired::Wired;
use mio::Poll;
use mio::net::TcpStream;
use std::alloc::{AllocError, Global};
use std::io;
use std::io::ErrorKind;
use std::net::{IpAddr, SocketAddr};

/// The connections of lines.
#[derive(Drop)]
pub(crate) struct Connections {
    /// Of each line, by its place.
    pub(crate) lines: Vec<Option<Wired>>,
    /// Who dials and is dialled.
    pub(crate) nodes: Nodes,
    alloc: Global,
    /// How many who came by themselves were taken in so far.
    count: u64,
    /// Whether the system ends connections to peers whose machine is lost. Nodes see to that by what they send each other.
    ends_lost_peers: bool,
    /// Whether what is written to other nodes is gathered until a flush. Not where the system ends connections to lost
    /// machines: a relay writes one answer at a time, and may end behind it.
    gathers: bool,
    /// The place of the line that was written to last, if any was. What was gathered for another was sent, as far as there was
    /// room, when the next was written to.
    written: Option<usize>,
}

/// Sends what was gathered for the connection that a line has, if it has one.
fn send(connection: &mut Option<Wired>)
    ensures { IfSome connection.new IsSent }
{
    if let Some(wired) = connection {
        wired.flush();
    }
}

/// Writes to the connection that a line has, or gathers what is to be written.
fn write_to(connection: &mut Option<Wired>, gathers: bool, bytes: &[u8]) -> Result<usize, Halt>
    ensures { IfOk result (λ count. count ≤ length bytes.now) }
{
    match connection {
        Some(wired) if gathers => wired.gather(bytes),
        Some(wired) => wired.write(bytes),
        None => Err(Halt::Ended),
    }
}

/// Has the connection that a line has watched as that of the line at this place. False where there is none, or that failed.
fn watch_as(connection: &mut Option<Wired>, poll: &Poll, place: usize) -> bool {
    match connection {
        Some(wired) => wired.watch_as(poll, place),
        None => false,
    }
}

impl Connections {
    ghost use Rattle.node_wires.specs.Places.{IsTakenIn};

    /// A line without a connection for each.
    pub(crate) fn new(
        alloc: Global,
        nodes: Nodes,
        ends_lost_peers: bool,
    ) -> Result<Connections, AllocError>
        ensures { IfOk result (λ connections. connections.nodes ≡ nodes) }
    {
        let mut lines = Vec::with_capacity(alloc, LINES)?;
        for _ in 0..LINES {
            lines.push(None)?;
        }
        Ok(Connections {
            lines,
            nodes,
            alloc,
            count: 0,
            ends_lost_peers,
            gathers: !ends_lost_peers,
            written: None,
        })
    }

    /// A stream is the connection of a line from now on, in place of the one that it has. Where that fails all is as it was.
    pub(crate) fn begin(
        &mut self,
        poll: &Poll,
        line: Line,
        stream: TcpStream,
        who: Stander,
    ) -> io::Result<()> {
        match line.place() {
            Some(place) => self.begin_at(poll, place, (stream, line.is_of_bot()), who),
            None => Err(io::Error::from(ErrorKind::Other)),
        }
    }

    /// A stream is the connection of the line at a place from now on. It is said whether that of a bot. Where that fails all
    /// is as it was.
    fn begin_at(
        &mut self,
        poll: &Poll,
        place: usize,
        came: (TcpStream, bool),
        who: Stander,
    ) -> io::Result<()>
        ensures begun { IfOk result (λ _. (wired : Wired) × (wired.who ≡ who) × (self.new.lines.items ≡ slice_set self.old.lines.items place (Some wired))) }
        ensures failed { OnErr result (self.new.lines.items ≡ self.old.lines.items) }
        ensures nodes { self.new.nodes ≡ self.old.nodes }
    {
        let (stream, is_of_bot) = came;
        if place >= self.lines.len() {
            return Err(io::Error::from(ErrorKind::Other));
        }
        if self.ends_lost_peers || is_of_bot {
            keep_alive(&stream)?;
        } else {
            // A system that doesn't know how sends again as it always does.
            let _ = send_again_soon(&stream);
        }
        self.lines[place] = Some(Wired::watch(self.alloc, poll, stream, place, who)?);
        Ok(())
    }

    /// Takes in one who came at this moment, where there is a place for him, and answers it. A stranger who has stood there
    /// makes room, where there is none or too many are of his address. Where no place is for him he is let go of, and all others
    /// stay.
    pub(crate) fn take_in(
        &mut self,
        poll: &Poll,
        comer: Comer,
        came: (TcpStream, SocketAddr),
        now: u64,
    ) -> Option<u8>
        ensures taken { IfSome result (IsTakenIn comer self.old.nodes self.old.lines.items self.new.lines.items) }
        ensures none { IsNone result → self.new.lines.items ≡ self.old.lines.items }
        ensures nodes { self.new.nodes ≡ self.old.nodes }
    {
        let (stream, from) = came;
        let place = self.place_for(comer, from.ip(), now)?;
        self.count = self.count.saturating_add(1);
        let who = Stander {
            address: from.ip(),
            turn: Some(self.count),
            since: now,
        };
        let at = comer.first() + place as usize;
        match self.begin_at(poll, at, (stream, comer.is_of_bot()), who) {
            Ok(()) => Some(place),
            Err(_) => None,
        }
    }

    /// Gives the connection of the guest at a place to a seat's line. False where there is none, or the system can't have
    /// it watched so: then all is as it was.
    pub(crate) fn seat_guest(&mut self, poll: &Poll, place: u8, seat: u8) -> bool {
        let (Some(guest), Some(at)) = (Line::Guest(place).place(), Line::Seat(seat).place()) else {
            return false;
        };
        if guest >= self.lines.len() || at >= self.lines.len() {
            return false;
        }
        if !watch_as(&mut self.lines[guest], poll, at) {
            return false;
        }
        self.lines.swap(guest, at);
        self.lines[guest] = None;
        true
    }

    /// The connection of a line.
    fn at(&self, line: Line) -> Option<&Wired> {
        self.lines.get(line.place()?)?.as_ref()
    }

    /// The connection of a line, to act on.
    fn at_mut(&mut self, line: Line) -> Option<&mut Wired> {
        self.wired(line.place()?)
    }

    /// The connection at a place, to act on.
    fn wired(&mut self, place: usize) -> Option<&mut Wired> {
        self.lines.get_mut(place)?.as_mut()
    }

    /// The address at the other end of a line's connection.
    pub(crate) fn source(&self, line: Line) -> Option<IpAddr> {
        Some(self.at(line)?.who().address)
    }

    /// The system told of the line at this place, perhaps that nothing comes behind what is there.
    pub(crate) fn wake(&mut self, place: usize, has_closed: bool) {
        if let Some(wired) = self.wired(place) {
            wired.wake(has_closed);
        }
    }

    /// Reads what came over a line, no more than the buffer holds: 0 bytes where it holds none. The system isn't asked then, of
    /// which 0 bytes mean that the connection ended.
    pub(crate) fn read(&mut self, line: Line, piece: &mut [u8]) -> Result<usize, Halt>
        ensures within { IfOk result (λ count. count ≤ length piece.new) }
        ensures room { OnErr result (0 < length piece.new) }
    {
        if piece.is_empty() {
            return Ok(0);
        }
        match self.at_mut(line) {
            Some(wired) => wired.read(piece),
            None => Err(Halt::Ended),
        }
    }

    /// Sends what was gathered for the line at a place. All other connections stay as they are.
    fn flush_at(&mut self, place: usize)
        ensures sent { IsSentAt self.new.lines.items place }
        ensures length { length self.new.lines.items ≡ length self.old.lines.items }
        ensures others { (other : ℕ) → other ≢ place → slice_get self.new.lines.items other ≡ slice_get self.old.lines.items other }
        ensures written { self.new.written ≡ self.old.written }
    {
        if place < self.lines.len() {
            send(&mut self.lines[place]);
        }
    }

    /// The line at this place is written to from now on: what was gathered for the one before is sent, where that is another.
    fn turn_to(&mut self, place: Option<usize>)
        ensures written { self.new.written ≡ place }
        ensures sent { IfSome self.old.written (λ before. self.old.written ≢ place → IsSentAt self.new.lines.items before) }
    {
        if self.written != place {
            if let Some(before) = self.written {
                self.flush_at(before);
            }
        }
        self.written = place;
    }

    /// Writes to a line as many of these bytes as there is room for. What was gathered for the line that was written to before
    /// is sent first, where that is another: so the one gets its bytes while those for the next are made.
    pub(crate) fn write(&mut self, line: Line, bytes: &[u8]) -> Result<usize, Halt>
        ensures within { IfOk result (λ count. count ≤ length bytes.now) }
        ensures written { self.new.written ≡ place_of line }
        ensures sent { IfSome self.old.written (λ before. self.old.written ≢ place_of line → IsSentAt self.new.lines.items before) }
    {
        let place = line.place();
        self.turn_to(place);
        match place {
            Some(place) => self.write_at(place, self.gathers && line.is_of_node(), bytes),
            None => Err(Halt::Ended),
        }
    }

    /// Writes to the line at a place, or gathers what is to be written. All other connections stay as they are.
    fn write_at(&mut self, place: usize, gathers: bool, bytes: &[u8]) -> Result<usize, Halt>
        ensures within { IfOk result (λ count. count ≤ length bytes.now) }
        ensures others { (other : ℕ) → other ≢ place → slice_get self.new.lines.items other ≡ slice_get self.old.lines.items other }
        ensures written { self.new.written ≡ self.old.written }
    {
        if place < self.lines.len() {
            write_to(&mut self.lines[place], gathers, bytes)
        } else {
            Err(Halt::Ended)
        }
    }

    /// Sends what was gathered for each line.
    pub(crate) fn flush(&mut self)
        ensures { AllSent self.new.lines.items }
    {
        for place in 0..self.lines.len() {
            self.flush_at(place);
        }
    }

    /// It is known who has the connection of a line.
    pub(crate) fn know(&mut self, line: Line) {
        if let Some(wired) = self.at_mut(line) {
            wired.know();
        }
    }

    /// Closes the connection of a line.
    pub(crate) fn close(&mut self, line: Line) {
        if let Some(wired) = self.at_mut(line) {
            wired.flush();
        }
        if let Some(place) = line.place() {
            if let Some(connection) = self.lines.get_mut(place) {
                *connection = None;
            }
        }
    }
}
