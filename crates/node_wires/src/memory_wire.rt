//! Wires in memory, of whose calls one may fail.

ghost use Rattle.std.specs.Prelude.{◌≡◌, ◌≤◌, ◌<◌, ◌++◌, [], length, take, IfOk, OnErr};
ghost use Rattle.node_wires.specs.Passages.{logged_in};
ghost use Rattle.node_wires.specs.Logs.{IsLogged, logged_prop};
ghost use Rattle.node_wires.specs.Moments.{IsTimely, timely_prop};

use crate::comer::Comer;
use crate::coming::{Coming, Stander, better};
use crate::halt::Halt;
use crate::limits::{GUESTS, LINES, SEATS, STRANGERS};
use crate::line::Line;
use crate::passages::Passages;
use crate::pipe::Pipe;
use crate::places::is_open_to_guest;
use crate::way::Way;
use crate::wire::{Wire, WireFault};
use std::alloc::{AllocError, Global};
use std::net::{IpAddr, Ipv4Addr};

/// Wires in memory, for tests: who holds them puts in what comes, takes out what was written, and says what time it is.
pub struct MemoryWire {
    alloc: Global,
    /// The present moment. It only rises.
    moment: u64,
    /// Of each line, by its place.
    pipes: Vec<Pipe>,
    /// How many have dialled and aren't taken in yet.
    callers: u8,
    /// How many wait at the port of each seat.
    bots: [u16; SEATS],
    /// What some of them said meanwhile.
    calls: Vec<Call>,
    /// How many have come to the status port and aren't taken in yet.
    askers: u8,
    /// Who stands at each place of guests.
    guests: Vec<Option<Stander>>,
    /// How many guests were taken in so far.
    count: u64,
    /// Where all are who are at the other ends of lines.
    address: IpAddr,
    /// How often bytes were drawn.
    drawn: u64,
    log: Vec<u8>,
    /// How many calls pass before the one that fails; none once it has.
    left: Option<u64>,
    /// What passed, for clauses alone.
    passed: Passages,
    ghost logged: { IsLogged log.items passed.items } by { logged_prop log.items passed.items },
    ghost timely: { IsTimely moment passed.items } by { timely_prop moment passed.items },
}

/// What one who waits at the port of a seat said meanwhile.
#[derive(Drop)]
struct Call {
    seat: u8,
    said: Vec<u8>,
    /// He ended his connection behind it.
    has_ended: bool,
}

/// By hand, so that letting one go is one call for whoever owns it (docs/ARCHITECTURE.md, Habits).
impl Drop for MemoryWire {
    fn drop(self) {
        let MemoryWire {
            alloc: _,
            moment: _,
            pipes: _,
            callers: _,
            bots: _,
            calls: _,
            askers: _,
            guests: _,
            count: _,
            address: _,
            drawn: _,
            log: _,
            left: _,
            passed: _,
        } = self;
    }
}

/// No line has a connection.
fn no_pipes(alloc: Global) -> Result<Vec<Pipe>, AllocError> {
    let mut pipes = Vec::with_capacity(alloc, LINES)?;
    for _ in 0..LINES {
        pipes.push(Pipe::new(alloc))?;
    }
    Ok(pipes)
}

/// Nobody stands at any place of guests.
fn no_guests(alloc: Global) -> Result<Vec<Option<Stander>>, AllocError> {
    let mut guests = Vec::with_capacity(alloc, GUESTS)?;
    for _ in 0..GUESTS {
        guests.push(None)?;
    }
    Ok(guests)
}

/// Counts a call, and says whether it is the one that fails.
fn count_down(left: &mut Option<u64>) -> bool {
    match *left {
        None => false,
        Some(0) => {
            *left = None;
            true
        }
        Some(count) => {
            *left = Some(count - 1);
            false
        }
    }
}

/// The first place of those who come by themselves that has no connection.
fn free_place(pipes: &[Pipe], comer: Comer) -> Option<u8> {
    for place in 0..comer.places() {
        if !is_open(pipes, comer.line(place)) {
            return Some(place);
        }
    }
    None
}

/// The connection of a line.
fn at(pipes: &[Pipe], line: Line) -> Option<&Pipe> {
    pipes.get(line.place()?)
}

/// The connection of a line, to act on.
fn at_mut(pipes: &mut Vec<Pipe>, line: Line) -> Option<&mut Pipe> {
    pipes.get_mut(line.place()?)
}

/// Whether a line has a connection.
fn is_open(pipes: &[Pipe], line: Line) -> bool {
    match at(pipes, line) {
        Some(pipe) => pipe.is_open(),
        None => false,
    }
}

/// Whether somebody waits at the port of a seat.
fn is_there(bots: &[u16], seat: u8) -> bool {
    match bots.get(seat as usize) {
        Some(count) => *count > 0,
        None => false,
    }
}

/// One more waits at the port of a seat.
fn add_bot(bots: &mut [u16; SEATS], seat: u8) {
    if let Some(count) = bots.get_mut(seat as usize) {
        *count = count.saturating_add(1);
    }
}

/// One who waited at the port of a seat was taken in.
fn take_bot(bots: &mut [u16; SEATS], seat: u8) {
    if let Some(count) = bots.get_mut(seat as usize) {
        *count = count.saturating_sub(1);
    }
}

/// What the one said who is the next of those at the port of a seat who said anything.
fn take_call(calls: &mut Vec<Call>, seat: u8) -> Option<Call> {
    let position = calls.iter().position(|call| call.seat == seat)?;
    Some(calls.remove(position))
}

/// What one said before he was taken in comes over his line. Without memory for it nothing does.
fn say(pipes: &mut Vec<Pipe>, line: Line, call: Option<Call>) {
    let Some(call) = call else {
        return;
    };
    if let Some(pipe) = at_mut(pipes, line) {
        let _ = pipe.come(&call.said);
        if call.has_ended {
            pipe.end();
        }
    }
}

/// How many strangers of an address stand at places of guests.
fn strangers(guests: &[Option<Stander>], address: IpAddr) -> usize {
    let mut count = 0usize;
    for place in 0..guests.len() {
        if let Some(who) = guests[place] {
            if who.is_stranger_of(address) {
                count = count.saturating_add(1);
            }
        }
    }
    count
}

/// Who stands at a place of guests.
fn standing(guests: &[Option<Stander>], place: u8) -> Option<Stander> {
    *guests.get(place as usize)?
}

/// How soon one who comes to the port of a seat takes a place of guests.
fn rank(guests: &[Option<Stander>], coming: Coming, seat: u8, place: u8) -> Option<u64> {
    if is_open_to_guest(seat, place) {
        coming.rank(place, standing(guests, place))
    } else {
        None
    }
}

/// The place of guests that one who comes to the port of a seat takes, as over TCP.
fn place_of_guest(guests: &[Option<Stander>], seat: u8, address: IpAddr, now: u64) -> Option<u8> {
    let comer = Comer::Guest(seat);
    let is_crowded = STRANGERS <= strangers(guests, address);
    let coming = Coming {
        comer,
        address,
        now,
        is_crowded,
    };
    let mut best = None;
    for place in 0..comer.places() {
        let rank = rank(guests, coming, seat, place);
        best = better(best, place, rank);
    }
    match best {
        Some(best) => Some(best.place),
        None => None,
    }
}

/// This one stands at a place of guests from now on, or nobody.
fn stand(guests: &mut Vec<Option<Stander>>, place: u8, who: Option<Stander>) {
    if let Some(standing) = guests.get_mut(place as usize) {
        *standing = who;
    }
}

/// It is known who stands at a place of guests.
fn know(guests: &mut Vec<Option<Stander>>, place: u8) {
    if let Some(Some(who)) = guests.get_mut(place as usize) {
        who.turn = None;
    }
}

/// A connection begins; false of a line that there isn't.
fn begin(pipes: &mut Vec<Pipe>, line: Line) -> bool {
    match at_mut(pipes, line) {
        Some(pipe) => {
            pipe.begin();
            true
        }
        None => false,
    }
}

/// A connection begins at the first free place of those who come so, which is answered.
fn begin_one(pipes: &mut Vec<Pipe>, comer: Comer) -> Option<u8> {
    let place = free_place(pipes, comer)?;
    if begin(pipes, comer.line(place)) {
        Some(place)
    } else {
        None
    }
}

/// Reads what came over a line, where there is such a one and the call isn't one that fails.
fn read(pipes: &mut Vec<Pipe>, fails: bool, line: Line, piece: &mut [u8]) -> Result<usize, Halt>
    ensures within { IfOk result (λ count. count ≤ length piece.new) }
    ensures room { OnErr result (0 < length piece.new) }
{
    if piece.is_empty() {
        return Ok(0);
    }
    match at_mut(pipes, line) {
        Some(pipe) if !fails => pipe.read(piece),
        _ => Err(Halt::Ended),
    }
}

/// Writes to a line, where there is such a one and the call isn't one that fails.
fn write(pipes: &mut Vec<Pipe>, fails: bool, line: Line, bytes: &[u8]) -> Result<usize, Halt>
    ensures { IfOk result (λ count. count ≤ length bytes.now) }
{
    match at_mut(pipes, line) {
        Some(pipe) if !fails => pipe.write(bytes),
        _ => Err(Halt::Ended),
    }
}

fn close(pipes: &mut Vec<Pipe>, line: Line) {
    if let Some(pipe) = at_mut(pipes, line) {
        pipe.close();
    }
}

/// Gives the connection of the guest at a place to a seat's line. False where there is none.
fn seat_guest(pipes: &mut Vec<Pipe>, place: u8, seat: u8) -> bool {
    let (Some(guest), Some(at)) = (Line::Guest(place).place(), Line::Seat(seat).place()) else {
        return false;
    };
    if !is_open(pipes, Line::Guest(place)) || guest >= pipes.len() || at >= pipes.len() {
        return false;
    }
    pipes.swap(guest, at);
    close(pipes, Line::Guest(place));
    true
}

impl MemoryWire {
    ghost use Rattle.node_wires.specs.MemoryPassed.{passed_of};

    /// Wires without connections, at moment 0. The call of this number fails, counted from 1; with 0 none does.
    pub fn new(alloc: Global, call: u64) -> Result<MemoryWire, AllocError>
        ensures { IfOk result (λ wire. passed_of wire ≡ []) }
    {
        Ok(MemoryWire {
            alloc,
            moment: 0,
            pipes: no_pipes(alloc)?,
            callers: 0,
            bots: [0; SEATS],
            calls: Vec::new(alloc),
            askers: 0,
            guests: no_guests(alloc)?,
            count: 0,
            address: IpAddr::V4(Ipv4Addr::LOCALHOST),
            drawn: 0,
            log: Vec::new(alloc),
            left: call.checked_sub(1),
            passed: Passages::new(),
        })
    }

    /// It is this moment from now on, where it isn't later already.
    #[tactic(auto, using(crate::proofs::Moments::timely_later))]
    pub fn set_now(&mut self, now: u64)
        ensures { passed_of self.new ≡ passed_of self.old }
    {
        self.moment = self.moment.max(now);
    }

    /// Somebody dials this node.
    pub fn call(&mut self) {
        self.callers = self.callers.saturating_add(1);
    }

    /// A bot comes to the port of a seat, where nobody waits there yet.
    pub fn come_to_seat(&mut self, seat: u8) {
        if !is_there(&self.bots, seat) {
            add_bot(&mut self.bots, seat);
        }
    }

    /// A bot comes to the port of a seat, waits there behind those who came before, and says these bytes meanwhile; its connection
    /// may end behind them. An `Err`, for want of memory, changes nothing.
    pub fn call_seat(&mut self, seat: u8, said: &[u8], ends: bool) -> Result<(), AllocError> {
        let said = Vec::from_slice(self.alloc, said)?;
        self.calls.push(Call {
            seat,
            said,
            has_ended: ends,
        })?;
        add_bot(&mut self.bots, seat);
        Ok(())
    }

    /// Somebody comes to the status port.
    pub fn ask(&mut self) {
        self.askers = self.askers.saturating_add(1);
    }

    /// All who are at the other ends of lines are at this address from now on.
    pub fn set_address(&mut self, address: IpAddr) {
        self.address = address;
    }

    /// The next one who came to the port of a seat stands at a place of guests, if there is one for him, which is answered.
    fn begin_guest(&mut self, seat: u8) -> Option<u8>
        ensures passed { self.new.passed ≡ self.old.passed }
        ensures log { self.new.log ≡ self.old.log }
    {
        take_bot(&mut self.bots, seat);
        let call = take_call(&mut self.calls, seat);
        let place = place_of_guest(&self.guests, seat, self.address, self.moment)?;
        if !begin(&mut self.pipes, Line::Guest(place)) {
            return None;
        }
        say(&mut self.pipes, Line::Guest(place), call);
        self.count = self.count.saturating_add(1);
        let who = Stander {
            address: self.address,
            turn: Some(self.count),
            since: self.moment,
        };
        stand(&mut self.guests, place, Some(who));
        Some(place)
    }

    /// Whether a line has a connection.
    pub fn is_open(&self, line: Line) -> bool {
        is_open(&self.pipes, line)
    }

    /// The other side of a line's connection sends these bytes.
    pub fn come(&mut self, line: Line, bytes: &[u8]) -> Result<(), AllocError> {
        match at_mut(&mut self.pipes, line) {
            Some(pipe) => pipe.come(bytes),
            None => Ok(()),
        }
    }

    /// The other side of a line's connection takes nothing from now on, or takes what is written again.
    pub fn set_deaf(&mut self, line: Line, is_deaf: bool)
        ensures { passed_of self.new ≡ passed_of self.old }
    {
        if let Some(pipe) = at_mut(&mut self.pipes, line) {
            pipe.set_deaf(is_deaf);
        }
    }

    /// The other side ends a line's connection, behind what it sent.
    pub fn end(&mut self, line: Line) {
        if let Some(pipe) = at_mut(&mut self.pipes, line) {
            pipe.end();
        }
    }

    /// What was written to a line and isn't taken yet.
    pub fn written(&self, line: Line) -> &[u8] {
        match at(&self.pipes, line) {
            Some(pipe) => pipe.written(),
            None => &[],
        }
    }

    /// What was written to a line is taken.
    pub fn take_written(&mut self, line: Line) {
        if let Some(pipe) = at_mut(&mut self.pipes, line) {
            pipe.take_written();
        }
    }

    /// What the log has.
    pub fn log(&self) -> &[u8]
        ensures { result.now ≡ logged_in (passed_of self.now) }
    {
        &self.log
    }
}

impl Wire for MemoryWire {
    ghost use Rattle.node_wires.specs.MemoryPassed.{passed_of, moments_in_order};

    ghost passed = { λ wire. wire.passed.items };

    #[tactic(auto, using(crate::proofs::Logged::when_seen, crate::proofs::Moments::timely_seen, crate::proofs::Moments::reached))]
    fn now(&mut self) -> u64 {
        self.passed.saw(self.moment);
        self.moment
    }

    /// No time passes.
    #[tactic(auto, using(crate::proofs::Logged::when_waited, crate::proofs::Moments::order_waited, crate::proofs::Moments::latest_waited))]
    fn wait(&mut self, most: u64) {
        self.passed.waited(most);
    }

    #[tactic(auto, using(crate::proofs::Logged::when_called, crate::proofs::Moments::order_called, crate::proofs::Moments::latest_called))]
    fn called(&mut self) {
        self.passed.called();
    }

    /// The count of draws, and zeros behind it.
    fn draw(&mut self) -> Option<[u8; 32]> {
        if count_down(&mut self.left) {
            return None;
        }
        self.drawn = self.drawn.wrapping_add(1);
        let mut bytes = [0; 32];
        bytes[..8].copy_from_slice(&self.drawn.to_le_bytes());
        Some(bytes)
    }

    fn source(&mut self, line: Line) -> Option<IpAddr> {
        if is_open(&self.pipes, line) {
            Some(self.address)
        } else {
            None
        }
    }

    #[tactic(auto, using(crate::proofs::Logged::when_began, crate::proofs::Moments::order_began, crate::proofs::Moments::latest_began))]
    fn dial(&mut self, peer: u8) -> Result<(), WireFault> {
        if count_down(&mut self.left) || !begin(&mut self.pipes, Line::Peer(peer)) {
            return Err(WireFault::Failed);
        }
        self.passed.began(Line::Peer(peer));
        Ok(())
    }

    #[tactic(auto, using(crate::proofs::Logged::when_began, crate::proofs::Moments::order_began, crate::proofs::Moments::latest_began))]
    fn accept(&mut self) -> Option<u8> {
        if self.callers == 0 || count_down(&mut self.left) {
            return None;
        }
        let place = begin_one(&mut self.pipes, Comer::Caller)?;
        self.callers -= 1;
        self.passed.began(Line::Caller(place));
        Some(place)
    }

    #[tactic(auto, using(crate::proofs::Logged::when_began, crate::proofs::Moments::order_began, crate::proofs::Moments::latest_began))]
    fn accept_seat(&mut self, seat: u8) -> bool {
        if !is_there(&self.bots, seat) || count_down(&mut self.left) {
            return false;
        }
        if !begin(&mut self.pipes, Line::Seat(seat)) {
            return false;
        }
        take_bot(&mut self.bots, seat);
        let call = take_call(&mut self.calls, seat);
        say(&mut self.pipes, Line::Seat(seat), call);
        self.passed.began(Line::Seat(seat));
        true
    }

    #[tactic(auto, using(crate::proofs::Logged::when_began, crate::proofs::Moments::order_began, crate::proofs::Moments::latest_began))]
    fn accept_guest(&mut self, seat: u8) -> Option<u8> {
        if !is_there(&self.bots, seat) || count_down(&mut self.left) {
            return None;
        }
        let place = self.begin_guest(seat)?;
        self.passed.began(Line::Guest(place));
        Some(place)
    }

    #[tactic(auto, using(crate::proofs::Logged::when_gave, crate::proofs::Moments::order_gave, crate::proofs::Moments::latest_gave))]
    fn seat_guest(&mut self, place: u8, seat: u8) -> bool {
        if count_down(&mut self.left) || !seat_guest(&mut self.pipes, place, seat) {
            return false;
        }
        stand(&mut self.guests, place, None);
        self.passed.gave(place, seat);
        true
    }

    #[tactic(auto, using(crate::proofs::Logged::when_began, crate::proofs::Moments::order_began, crate::proofs::Moments::latest_began))]
    fn accept_asker(&mut self) -> Option<u8> {
        if self.askers == 0 || count_down(&mut self.left) {
            return None;
        }
        let place = begin_one(&mut self.pipes, Comer::Asker)?;
        self.askers -= 1;
        self.passed.began(Line::Asker(place));
        Some(place)
    }

    #[tactic(auto, using(crate::proofs::Logged::when_came, crate::proofs::Logged::when_halted, crate::proofs::Moments::order_came, crate::proofs::Moments::latest_came, crate::proofs::Moments::order_halted, crate::proofs::Moments::latest_halted))]
    fn read(&mut self, line: Line, piece: &mut [u8]) -> Result<usize, Halt> {
        let fails = count_down(&mut self.left);
        match read(&mut self.pipes, fails, line, piece) {
            Ok(count) => {
                self.passed.came(line, &piece[..count]);
                Ok(count)
            }
            Err(halt) => {
                self.passed.halted(line, Way::Reading, halt);
                Err(halt)
            }
        }
    }

    #[tactic(auto, using(crate::proofs::Logged::when_wrote, crate::proofs::Logged::when_halted, crate::proofs::Moments::order_wrote, crate::proofs::Moments::latest_wrote, crate::proofs::Moments::order_halted, crate::proofs::Moments::latest_halted))]
    fn write(&mut self, line: Line, bytes: &[u8]) -> Result<usize, Halt> {
        let fails = count_down(&mut self.left);
        match write(&mut self.pipes, fails, line, bytes) {
            Ok(count) => {
                self.passed.wrote(line, &bytes[..count]);
                Ok(count)
            }
            Err(halt) => {
                self.passed.halted(line, Way::Writing, halt);
                Err(halt)
            }
        }
    }

    /// All that was written is on the way.
    fn flush(&mut self) {}

    /// All who dial come in, so it counts of guests alone.
    fn know(&mut self, line: Line) {
        if let Line::Guest(place) = line {
            know(&mut self.guests, place);
        }
    }

    #[tactic(auto, using(crate::proofs::Logged::when_closed, crate::proofs::Moments::order_closed, crate::proofs::Moments::latest_closed))]
    fn close(&mut self, line: Line) {
        close(&mut self.pipes, line);
        if let Line::Guest(place) = line {
            stand(&mut self.guests, place, None);
        }
        self.passed.closed(line);
    }

    #[tactic(auto, using(crate::proofs::Logged::when_logged, crate::proofs::Moments::order_logged, crate::proofs::Moments::latest_logged))]
    fn add_to_log(&mut self, text: &[u8]) -> Result<(), WireFault> {
        if count_down(&mut self.left) {
            return Err(WireFault::Failed);
        }
        if self.log.extend_from_slice(text).is_err() {
            return Err(WireFault::OutOfMemory);
        }
        self.passed.logged(text);
        Ok(())
    }

    ghost in_order = { moments_in_order };
}
