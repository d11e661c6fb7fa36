//! The ends of all connections of a process, and who waits to be taken in.

ghost use Rattle.std.specs.Prelude.{◌≡◌, ◌≤◌, ◌<◌, length, IfOk, OnErr};

use crate::act::{Act, What};
use crate::clock::Clock;
use crate::most_read::MostRead;
use crate::pipe::Pipe;
use node_wires::limits::{
    ASKERS, CALLERS, DIALLED, DOORS, GUESTS, KEPT, LINES, NODES, ORDINARY, OTHERS, SEATS, STANDS,
    STRANGERS,
};
use node_wires::{Halt, Line};
use std::alloc::{AllocError, Global};

/// A connection has room for so many bytes that weren't read yet.
pub const ROOM: usize = 65_536;

/// So many may wait at one port to be taken in; who dials then isn't answered.
pub const BACKLOG: usize = 4_096;

/// The port to which somebody comes.
#[derive(Clone, Copy, Debug, PartialEq, Eq)]
pub enum Port {
    Peers,
    Seat(u8),
    Status,
}

/// The ends of all connections of a process.
#[derive(Drop)]
pub struct Ends<'a> {
    alloc: Global,
    clock: &'a Clock,
    /// Of each line, by its place.
    pipes: Vec<Pipe>,
    /// Those who came to each port and aren't taken in yet, by `queue_of`.
    comers: Vec<Vec<Pipe>>,
    acts: Vec<Act>,
    /// The number of the next connection that the process begins.
    next: u32,
    /// How many turns began, and what was read in one at most.
    turns: u64,
    most_read: MostRead,
    /// How many came so far.
    turn: u64,
    drawn: u64,
    seed: u64,
    turned_away: u64,
    /// Memory was refused for what is to be told.
    has_lost: bool,
}

/// The place of a line among all; none of a number that there isn't.
pub fn place_of(line: Line) -> Option<usize> {
    let (number, count, first) = match line {
        Line::Peer(number) => (number, DIALLED, 0),
        Line::Caller(number) => (number, CALLERS, DIALLED),
        Line::Seat(number) => (number, SEATS, DIALLED + CALLERS),
        Line::Guest(number) => (number, GUESTS, DIALLED + CALLERS + SEATS),
        Line::Asker(number) => (number, ASKERS, DIALLED + CALLERS + SEATS + GUESTS),
    };
    let number = number as usize;
    if number < count {
        Some(number.saturating_add(first))
    } else {
        None
    }
}

/// The queue of a port among those of all.
fn queue_of(port: Port) -> usize {
    match port {
        Port::Peers => 0,
        Port::Status => 1,
        Port::Seat(seat) => (seat as usize).saturating_add(2),
    }
}

/// So many queues, in which nobody waits.
fn empty_queues(alloc: Global, count: usize) -> Result<Vec<Vec<Pipe>>, AllocError> {
    let mut queues = Vec::with_capacity(alloc, count)?;
    for _ in 0..count {
        queues.push(Vec::new(alloc))?;
    }
    Ok(queues)
}

/// In which of these queues who has a connection waits, and where in it. It is sought among the last ones first.
fn waits_at(queues: &[Vec<Pipe>], connection: u32) -> Option<(usize, usize)> {
    for (number, queue) in queues.iter().enumerate() {
        for place in (0..queue.len()).rev() {
            if let Some(pipe) = queue.get(place) {
                if pipe.connection == Some(connection) {
                    return Some((number, place));
                }
            }
        }
    }
    None
}

/// Places at which who comes may stand.
#[derive(Clone, Copy)]
struct Places {
    /// The first of them, and how many there are.
    first: usize,
    count: usize,
    /// From this one on there are those that are of one seat alone, so many of each, and which of them he may take.
    doors: usize,
    seat: usize,
    /// Who stands at one makes room for nobody before he has stood for so long.
    stay: u64,
}

/// So many places from this one on, which are open to all who come; who stands there makes room behind so long.
fn open_places(first: usize, count: usize, stay: u64) -> Places {
    Places {
        first,
        count,
        doors: usize::MAX,
        seat: 0,
        stay,
    }
}

/// The places of one from this address who dialled.
fn places_of_caller(address: u16) -> Places {
    let node = address as usize;
    if node < NODES {
        open_places(DIALLED + OTHERS + KEPT * node, KEPT, 0)
    } else {
        open_places(DIALLED, OTHERS, STANDS)
    }
}

/// The places of one who came to a seat's port.
fn places_of_guest(seat: u8) -> Places {
    Places {
        first: DIALLED + CALLERS + SEATS,
        count: GUESTS,
        doors: DIALLED + CALLERS + SEATS + ORDINARY,
        seat: seat as usize,
        stay: STANDS,
    }
}

impl Places {
    /// Whether a place is of one seat alone; none where it is another seat's.
    fn is_door(self, place: usize) -> Option<bool> {
        match place.checked_sub(self.doors) {
            None => Some(false),
            Some(door) if door / DOORS == self.seat => Some(true),
            Some(_) => None,
        }
    }
}

impl<'a> Ends<'a> {
    /// No connection, and nobody waits.
    pub fn new(alloc: Global, clock: &'a Clock, seed: u64) -> Result<Ends<'a>, AllocError> {
        let mut pipes = Vec::with_capacity(alloc, LINES)?;
        for _ in 0..LINES {
            pipes.push(Pipe::none(alloc))?;
        }
        Ok(Ends {
            alloc,
            clock,
            pipes,
            comers: empty_queues(alloc, SEATS.saturating_add(2))?,
            acts: Vec::new(alloc),
            next: 0,
            turns: 0,
            most_read: MostRead::none(),
            turn: 0,
            drawn: 0,
            seed,
            turned_away: 0,
            has_lost: false,
        })
    }

    /// The present moment.
    pub fn now(&self) -> u64 {
        self.clock.now()
    }

    /// A turn begins. The next connection that the process begins has this number.
    pub fn begin_turn(&mut self, next: u32) {
        self.next = next;
        self.turns = self.turns.saturating_add(1);
    }

    /// The most bytes that were read over one connection in one turn.
    pub fn most_read(&self) -> MostRead {
        self.most_read
    }

    /// What was done since this was last asked; an error where memory was refused for some of it.
    pub fn take_acts(&mut self) -> Result<Vec<Act>, AllocError> {
        if self.has_lost {
            return Err(AllocError);
        }
        let alloc = self.alloc;
        let mut acts = Vec::new(alloc);
        std::mem::swap(&mut acts, &mut self.acts);
        Ok(acts)
    }

    /// How many who dialled were turned away.
    pub fn turned_away(&self) -> u64 {
        self.turned_away
    }

    /// Notes what was done.
    fn note(&mut self, what: What) {
        let moment = self.clock.now();
        if self.acts.push(Act { moment, what }).is_err() {
            self.has_lost = true;
        }
    }

    /// A copy of bytes that are to be told.
    fn copy(&mut self, bytes: &[u8]) -> Option<Vec<u8>> {
        match Vec::from_slice(self.alloc, bytes) {
            Ok(bytes) => Some(bytes),
            Err(_) => {
                self.has_lost = true;
                None
            }
        }
    }

    /// The end of this connection.
    fn find(&mut self, connection: u32) -> Option<&mut Pipe> {
        for pipe in self.pipes.iter_mut() {
            if pipe.connection == Some(connection) {
                return Some(pipe);
            }
        }
        let (queue, place) = waits_at(&self.comers, connection)?;
        self.comers.get_mut(queue)?.get_mut(place)
    }

    /// Somebody from this address came to a port. So many bytes may be written to him before he has read some. False where too many
    /// wait there: he isn't answered.
    pub fn come(
        &mut self,
        port: Port,
        connection: u32,
        address: u16,
        room: usize,
    ) -> Result<bool, AllocError> {
        let mut pipe = Pipe::new(self.alloc, connection, address, room);
        self.turn = self.turn.saturating_add(1);
        pipe.turn = Some(self.turn);
        let Some(queue) = self.comers.get_mut(queue_of(port)) else {
            return Ok(false);
        };
        if queue.len() >= BACKLOG {
            return Ok(false);
        }
        queue.push(pipe)?;
        Ok(true)
    }

    /// These bytes came over a connection. False where the process has no end of it.
    pub fn deliver(&mut self, connection: u32, bytes: &[u8]) -> Result<bool, AllocError> {
        match self.find(connection) {
            Some(pipe) => {
                pipe.come(bytes)?;
                Ok(true)
            }
            None => Ok(false),
        }
    }

    /// The other end of a connection sends nothing more.
    pub fn end(&mut self, connection: u32) {
        if let Some(pipe) = self.find(connection) {
            pipe.has_ended = true;
        }
    }

    /// A connection is gone: what came can be read, and nothing can be written any more.
    pub fn break_off(&mut self, connection: u32) {
        if let Some(pipe) = self.find(connection) {
            pipe.is_gone = true;
        }
    }

    /// A connection has room for so many bytes more: its dial was answered, or what was written is read. It says whether it had none.
    pub fn make_room(&mut self, connection: u32, room: usize) -> bool {
        match self.find(connection) {
            Some(pipe) => {
                let was_full = pipe.room == 0;
                pipe.room = pipe.room.saturating_add(room).min(ROOM);
                was_full
            }
            None => false,
        }
    }

    /// Bytes that look drawn.
    pub fn draw(&mut self) -> Option<[u8; 32]> {
        if self.clock.is_dead() {
            return None;
        }
        self.drawn = self.drawn.wrapping_add(1);
        let mut bytes = [0; 32];
        bytes[..8].copy_from_slice(&self.drawn.to_le_bytes());
        bytes[8..16].copy_from_slice(&self.seed.to_le_bytes());
        Some(bytes)
    }

    /// Where the other end of a line's connection is.
    pub fn address(&self, line: Line) -> Option<u16> {
        let pipe = self.pipes.get(place_of(line)?)?;
        pipe.connection?;
        Some(pipe.address)
    }

    /// Puts the end of a connection at a place, in place of the one there, which is closed.
    fn put(&mut self, place: usize, pipe: Pipe) -> bool {
        self.close_at(place);
        match self.pipes.get_mut(place) {
            Some(kept) => {
                *kept = pipe;
                true
            }
            None => false,
        }
    }

    /// Closes the connection at a place, if one is there.
    fn close_at(&mut self, place: usize) {
        let Some(pipe) = self.pipes.get_mut(place) else {
            return;
        };
        let Some(connection) = pipe.connection else {
            return;
        };
        pipe.connection = None;
        pipe.came.clear();
        pipe.room = 0;
        pipe.has_ended = false;
        pipe.is_gone = false;
        self.note(What::Closed { connection });
    }

    /// Closes the connection of a line.
    pub fn close(&mut self, line: Line) {
        if self.clock.is_dead() {
            return;
        }
        if let Some(place) = place_of(line) {
            self.close_at(place);
        }
    }

    /// Dials a peer, over the line of this number: each has two.
    pub fn dial(&mut self, peer: u8) -> bool {
        let Some(place) = place_of(Line::Peer(peer)) else {
            return false;
        };
        if !self.clock.spend_call() {
            return false;
        }
        let connection = self.next;
        self.next = self.next.wrapping_add(1);
        let node = peer % NODES as u8;
        let pipe = Pipe::new(self.alloc, connection, node as u16, 0);
        if !self.put(place, pipe) {
            return false;
        }
        self.note(What::Dialled {
            connection,
            peer: node,
        });
        true
    }

    /// The end of the connection of who came first to a port and isn't taken in.
    fn take_comer(&mut self, port: Port) -> Option<Pipe> {
        let queue = self.comers.get_mut(queue_of(port))?;
        if queue.is_empty() {
            return None;
        }
        Some(queue.remove(0))
    }

    /// How many of an address stand at these places of whom it isn't known who they are.
    fn strangers(&self, first: usize, count: usize, address: u16) -> usize {
        let mut strangers = 0usize;
        for pipe in self.pipes.iter().skip(first).take(count) {
            if pipe.connection.is_some() && pipe.turn.is_some() && pipe.address == address {
                strangers = strangers.saturating_add(1);
            }
        }
        strangers
    }

    /// How soon one from an address takes a place, at which this end stands: one that is free and open to all first, then that of who
    /// came first and has stood long enough, then one of his seat alone. Where many of his address stand none is free but that one,
    /// and none but they make room.
    fn rank(&self, places: Places, place: usize, address: u16, is_crowded: bool) -> Option<u64> {
        let pipe = self.pipes.get(place)?;
        let is_door = places.is_door(place)?;
        match (pipe.connection, pipe.turn) {
            (None, _) if is_door => Some(u64::MAX),
            (None, _) => { if is_crowded { None } else { Some(0) } }
            (Some(_), Some(turn)) => {
                let may_go = self.clock.now().saturating_sub(pipe.since) >= places.stay
                    && (!is_crowded || pipe.address == address);
                if may_go { Some(turn) } else { None }
            }
            (Some(_), None) => None,
        }
    }

    /// Which of these places one from an address takes.
    fn place_for(&self, places: Places, address: u16) -> Option<usize> {
        let Places { first, count, .. } = places;
        let is_crowded = self.strangers(first, count, address) >= STRANGERS;
        let mut best: Option<(usize, u64)> = None;
        for place in first..first.saturating_add(count) {
            let rank = self.rank(places, place, address, is_crowded);
            if let Some(rank) = rank {
                let is_better = match best {
                    Some((_, before)) => rank < before,
                    None => true,
                };
                if is_better {
                    best = Some((place, rank));
                }
            }
        }
        let (place, _) = best?;
        Some(place)
    }

    /// Takes in one who came, at this place.
    fn take_in(&mut self, place: usize, pipe: Pipe) -> bool {
        let Some(connection) = pipe.connection else {
            return false;
        };
        let mut pipe = pipe;
        pipe.since = self.clock.now();
        if !self.put(place, pipe) {
            return false;
        }
        self.note(What::Taken { connection, place });
        true
    }

    /// Turns away one who came.
    fn turn_away(&mut self, pipe: &Pipe) {
        self.turned_away = self.turned_away.saturating_add(1);
        if let Some(connection) = pipe.connection {
            self.note(What::Closed { connection });
        }
    }

    /// Takes in the next one who dialled and for whom there is a place, and answers it.
    pub fn accept(&mut self) -> Option<u8> {
        for _ in 0..512u32 {
            if self.clock.is_dead() {
                return None;
            }
            let pipe = self.take_comer(Port::Peers)?;
            match self.place_for(places_of_caller(pipe.address), pipe.address) {
                Some(place) => {
                    if !self.clock.spend_call() || !self.take_in(place, pipe) {
                        return None;
                    }
                    return Some(place.saturating_sub(DIALLED).min(255) as u8);
                }
                None => self.turn_away(&pipe),
            }
        }
        None
    }

    /// Takes in the next one who came to a seat's port.
    pub fn accept_seat(&mut self, seat: u8) -> bool {
        let Some(place) = place_of(Line::Seat(seat)) else {
            return false;
        };
        if self.clock.is_dead() {
            return false;
        }
        let Some(mut pipe) = self.take_comer(Port::Seat(seat)) else {
            return false;
        };
        pipe.turn = None;
        self.clock.spend_call() && self.take_in(place, pipe)
    }

    /// Takes in the next one who came to a port, at one of these places, and answers which.
    fn accept_at(&mut self, port: Port, places: Places) -> Option<u8> {
        if self.clock.is_dead() {
            return None;
        }
        let pipe = self.take_comer(port)?;
        let Some(place) = self.place_for(places, pipe.address) else {
            self.turn_away(&pipe);
            return None;
        };
        if !self.clock.spend_call() || !self.take_in(place, pipe) {
            return None;
        }
        Some(place.saturating_sub(places.first).min(255) as u8)
    }

    /// Takes in the next one who came to a seat's port as a guest.
    pub fn accept_guest(&mut self, seat: u8) -> Option<u8> {
        self.accept_at(Port::Seat(seat), places_of_guest(seat))
    }

    /// Takes in the next one who came to the status port.
    pub fn accept_asker(&mut self) -> Option<u8> {
        self.accept_at(
            Port::Status,
            open_places(DIALLED + CALLERS + SEATS + GUESTS, ASKERS, 0),
        )
    }

    /// Gives the connection of a guest to a seat's line. What was read of him before isn't read of the seat.
    pub fn seat_guest(&mut self, guest: u8, seat: u8) -> bool {
        let (Some(from), Some(to)) = (place_of(Line::Guest(guest)), place_of(Line::Seat(seat)))
        else {
            return false;
        };
        if from >= self.pipes.len() || to >= self.pipes.len() || !self.clock.spend_call() {
            return false;
        }
        let Some(connection) = self.pipes[from].connection else {
            return false;
        };
        self.close_at(to);
        if from >= self.pipes.len() || to >= self.pipes.len() {
            return false;
        }
        self.pipes.swap(from, to);
        self.pipes[to].turn = None;
        self.pipes[to].read = 0;
        self.note(What::Taken {
            connection,
            place: to,
        });
        true
    }

    /// It is known who has the connection of a line.
    pub fn know(&mut self, line: Line) {
        if let Some(place) = place_of(line) {
            if let Some(pipe) = self.pipes.get_mut(place) {
                pipe.turn = None;
            }
        }
    }

    /// Reads what came over a line; 0 bytes where the buffer has no room.
    pub fn read(&mut self, line: Line, piece: &mut [u8]) -> Result<usize, Halt>
        ensures within { IfOk result (λ count. count ≤ length piece.new) }
        ensures room { OnErr result (0 < length piece.new) }
    {
        if piece.is_empty() {
            return Ok(0);
        }
        if self.clock.is_dead() {
            return Err(Halt::Ended);
        }
        let Some(place) = place_of(line) else {
            return Err(Halt::Ended);
        };
        let turn = self.turns;
        let Some(pipe) = self.pipes.get_mut(place) else {
            return Err(Halt::Ended);
        };
        let connection = pipe.connection;
        let count = pipe.read(piece)?;
        let read = pipe.count_read(turn, count);
        self.most_read.note(line, read);
        let _ = self.clock.spend_call();
        if let (Some(connection), Some(bytes)) = (connection, self.copy(&piece[..count])) {
            self.note(What::Read { connection, bytes });
        }
        Ok(count)
    }

    /// Writes to a line as much as there is room for.
    pub fn write(&mut self, line: Line, bytes: &[u8]) -> Result<usize, Halt>
        ensures { IfOk result (λ count. count ≤ length bytes.now) }
    {
        if self.clock.is_dead() {
            return Err(Halt::Ended);
        }
        let Some(place) = place_of(line) else {
            return Err(Halt::Ended);
        };
        let Some(pipe) = self.pipes.get_mut(place) else {
            return Err(Halt::Ended);
        };
        let connection = pipe.connection;
        let count = pipe.take_room(bytes.len())?;
        if !self.clock.spend_call() {
            return Err(Halt::Ended);
        }
        if let (Some(connection), Some(bytes)) = (connection, self.copy(&bytes[..count])) {
            self.note(What::Wrote { connection, bytes });
        }
        Ok(count)
    }

    /// Puts text behind the log. False where the process died before.
    pub fn log(&mut self, text: &[u8]) -> bool {
        if !self.clock.spend(5) {
            return false;
        }
        match self.copy(text) {
            Some(text) => {
                self.note(What::Logged { text });
                true
            }
            None => false,
        }
    }
}
