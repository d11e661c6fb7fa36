//! Wires over TCP, and a log in a file.

ghost use Rattle.std.specs.Prelude.{◌≡◌, ◌≢◌, ◌≤◌, ◌++◌, ◌∷◌, [], length, take, IfOk, IfErr, OnOk, OnErr, IfSome, IsNone};
ghost use Rattle.node_wires.specs.Lines.{place_of};
ghost use Rattle.node_wires.specs.Passages.{Began, Wrote, halted_as};
ghost use Rattle.node_wires.specs.Moments.{IsTimely, timely_prop};
ghost use Rattle.node_wires.specs.declared.line.Line.TheVariants.{Caller, Guest};
ghost use Rattle.node_wires.specs.declared.way.Way.TheVariants.{Writing};
ghost use Rattle.node_wires.specs.declared.comer.Comer.TheVariants.{Caller as Calling, Guest as Guesting};

use crate::bind_fault::{BindFault, Failed};
use crate::comer::Comer;
use crate::coming::Stander;
use crate::connections::Connections;
use crate::halt::Halt;
use crate::limits::{TAKEN_AT_ONCE, TURNING_AWAY};
use crate::line::Line;
use crate::nodes::Nodes;
use crate::passages::Passages;
use crate::ports::{DOOR, Ports, Reached};
use crate::way::Way;
use crate::wire::{Wire, WireFault};
use mio::net::TcpStream;
use mio::{Events, Poll, Token};
use std::alloc::AllocError;
use std::fs::File;
use std::io;
use std::io::{ErrorKind, Write};
use std::net::{IpAddr, SocketAddr};
use std::random::RandomSource;
use std::time::{Duration, Instant};

/// How many sockets may be told of at once; those behind them are told of at the next wait.
const TOLD_AT_ONCE: usize = 64;

/// Wires over TCP, with a log in a file, once it was given: without one `add_to_log` fails.
///
/// Sockets never block: `wait` waits for all of them at once, by the system's readiness, and each call looks only at what
/// the system told of.
pub struct TcpWire<'a> {
    rt: &'a HostRuntime,
    poll: Poll,
    events: Events,
    begun: Instant,
    /// The moment that was seen last.
    seen: u64,
    ports: Ports,
    connections: Connections,
    /// How many more of those who dialled are taken off the system's queue in this turn, at most.
    left: u16,
    /// Somebody who came was taken off a queue in this turn, so more may stand there.
    has_more: bool,
    /// How many who dialled were turned away so far.
    turned_away: u64,
    /// The log's file, once there is one.
    log: Option<File>,
    /// What failed last of dials and the log.
    failed: Option<Failed>,
    /// What passed, for clauses alone.
    passed: Passages,
    ghost timely: { IsTimely seen passed.items } by { timely_prop seen passed.items },
}

/// By hand, so that letting one go is one call for whoever owns it (docs/ARCHITECTURE.md, Habits).
impl Drop for TcpWire<'_> {
    fn drop(self) {
        let TcpWire {
            rt: _,
            poll: _,
            events: _,
            begun: _,
            seen: _,
            ports: _,
            connections: _,
            left: _,
            has_more: _,
            turned_away: _,
            log: _,
            failed: _,
            passed: _,
        } = self;
    }
}

/// Puts text behind what a file has.
fn append(file: &mut File, text: &[u8]) -> Result<(), ErrorKind> {
    match file.write_all(text) {
        Ok(()) => Ok(()),
        Err(fault) => Err(fault.kind()),
    }
}

/// A kind of fault of the system, as one of a wire.
fn fault_of(kind: ErrorKind) -> WireFault {
    match kind {
        ErrorKind::OutOfMemory => WireFault::OutOfMemory,
        _ => WireFault::Failed,
    }
}

impl<'a> TcpWire<'a> {
    ghost use Rattle.node_wires.specs.Nodes.{source_of, AreDialledAt};
    ghost use Rattle.node_wires.specs.Places.{IsTakenIn};

    /// Opens the port where other nodes dial this one, the ports of its seats, and where there is to be one that of its
    /// status. Nobody is dialled yet, nothing has passed, and there is no log.
    ///
    /// `peers` says where each node awaits the others, by number, and `number` which of them this one is; its seat 0 is
    /// awaited at `seats`, and seat s at the port that is s higher. Refused is the first port that can't be had. Of those who
    /// dial two places are kept for each node of a greater number, by the address at which it is dialled.
    pub fn bind(
        rt: &'a HostRuntime,
        peers: Vec<SocketAddr>,
        number: u8,
        seats: SocketAddr,
        players: u8,
        status: Option<SocketAddr>,
    ) -> Result<TcpWire<'a>, BindFault>
        ensures passed { IfOk result (λ wire. wire.passed.items ≡ []) }
        ensures nodes { IfOk result (λ wire. AreDialledAt number peers.items wire.connections.nodes) }
    {
        let Some(own) = peers.get(number as usize) else {
            return Err(BindFault::Failed {
                kind: ErrorKind::InvalidInput,
            });
        };
        let reached = Reached {
            peers: Some(*own),
            seats,
            players,
            status,
        };
        let nodes = Nodes::new(number, peers, Vec::new(rt.alloc()));
        TcpWire::open(rt, nodes, reached, false)
    }

    /// Opens one port, at which one bot is awaited as that of seat 0: the wires of who stands between a bot and the nodes.
    /// He dials the nodes, by number, and none of them dials him. There is no log, and no status. Connections whose other
    /// end is lost, bot or node, are ended by the system within half a minute.
    pub fn bind_bot(
        rt: &'a HostRuntime,
        nodes: Vec<SocketAddr>,
        bot: SocketAddr,
    ) -> Result<TcpWire<'a>, BindFault>
        ensures { IfOk result (λ wire. wire.passed.items ≡ []) }
    {
        let reached = Reached {
            peers: None,
            seats: bot,
            players: 1,
            status: None,
        };
        let nodes = Nodes::new(u8::MAX, nodes, Vec::new(rt.alloc()));
        TcpWire::open(rt, nodes, reached, true)
    }

    /// Opens the ports at which it is reached.
    fn open(
        rt: &'a HostRuntime,
        nodes: Nodes,
        reached: Reached,
        ends_lost_peers: bool,
    ) -> Result<TcpWire<'a>, BindFault>
        ensures passed { IfOk result (λ wire. wire.passed.items ≡ []) }
        ensures nodes { IfOk result (λ wire. wire.connections.nodes ≡ nodes) }
    {
        let poll = Poll::new(rt)?;
        let events = Events::with_capacity(rt.alloc(), TOLD_AT_ONCE)?;
        let begun = Instant::now(rt)?;
        let ports = Ports::open(rt, &poll, reached)?;
        let connections = Connections::new(rt.alloc(), nodes, ends_lost_peers)?;
        Ok(TcpWire {
            rt,
            poll,
            events,
            begun,
            seen: 0,
            ports,
            connections,
            left: TAKEN_AT_ONCE,
            has_more: false,
            turned_away: 0,
            log: None,
            failed: None,
            passed: Passages::new(),
        })
    }

    /// Where a seat's bot is awaited; none of a seat that there isn't, or where the system doesn't tell. Where the port 0 was
    /// asked for, it is the free one that the system gave.
    pub fn seat_address(&self, seat: u8) -> Option<SocketAddr> {
        self.ports.seat_address(seat)
    }

    /// A node dials from this address besides: places are kept for it there too. Where memory is refused all is as it was.
    pub fn add_source(&mut self, node: u8, address: IpAddr) -> Result<(), AllocError>
        ensures passed { self.new.passed ≡ self.old.passed }
        ensures added { OnOk result (self.new.connections.nodes.sources.items ≡ self.old.connections.nodes.sources.items ++ source_of node address ∷ []) }
        ensures refused { OnErr result (self.new.connections.nodes.sources.items ≡ self.old.connections.nodes.sources.items) }
        ensures addresses { self.new.connections.nodes.addresses ≡ self.old.connections.nodes.addresses }
        ensures own { self.new.connections.nodes.own ≡ self.old.connections.nodes.own }
        ensures lines { self.new.connections.lines ≡ self.old.connections.lines }
    {
        self.connections.nodes.add_source(node, address)
    }

    /// The log from now on: a file that is open for appending.
    pub fn add_log(&mut self, log: File) {
        self.log = Some(log);
    }

    /// What failed last of dials and the log, if anything did: which address or that it was the log, and the kind of the
    /// system's error.
    pub fn failed(&self) -> Option<Failed>
        ensures { result ≡ self.now.failed }
    {
        self.failed
    }

    /// Notes of what the system told.
    fn note(&mut self)
        ensures { self.new.passed ≡ self.old.passed }
    {
        for event in &self.events {
            let Token(token) = event.token();
            if token < DOOR {
                let has_closed = event.is_read_closed() || event.is_error();
                self.connections.wake(token, has_closed);
            } else {
                self.ports.note(token);
            }
        }
    }

    /// Waits for so many microseconds at most, and notes what the system told. A turn begins.
    fn poll_for(&mut self, most: u64)
        ensures { self.new.passed ≡ self.old.passed }
    {
        self.has_more = false;
        self.left = TAKEN_AT_ONCE;
        if self
            .poll
            .poll(&mut self.events, Some(Duration::from_micros(most)))
            .is_ok()
        {
            self.note();
        }
    }

    /// Dials a peer.
    fn begin_dial(&mut self, peer: u8) -> io::Result<()>
        ensures { self.new.passed ≡ self.old.passed }
    {
        let Some(address) = self.connections.nodes.address(peer) else {
            return Err(io::Error::from(ErrorKind::Other));
        };
        let stream = TcpStream::connect(self.rt, address)?;
        let who = self.known(address);
        self.connections
            .begin(&self.poll, Line::Peer(peer), stream, who)
    }

    /// Notes that a peer couldn't be dialled.
    fn fail_peer(&mut self, peer: u8, kind: ErrorKind)
        ensures { self.new.passed ≡ self.old.passed }
    {
        if let Some(address) = self.connections.nodes.address(peer) {
            self.failed = Some(Failed::Peer { address, kind });
        }
    }

    /// What the clock shows, in microseconds since these wires were opened; 0 where it can't be read.
    fn moment(&self) -> u64 {
        match self.begun.elapsed(self.rt) {
            Ok(spent) => spent
                .as_secs()
                .saturating_mul(1_000_000)
                .saturating_add(spent.subsec_micros() as u64),
            Err(_) => 0,
        }
    }

    /// Who is at this address, of whom it is known who he is.
    fn known(&self, address: SocketAddr) -> Stander {
        Stander {
            address: address.ip(),
            turn: None,
            since: self.moment(),
        }
    }

    /// Takes in one who came, if one did, and answers his place.
    fn take_in(&mut self, comer: Comer, came: Option<(TcpStream, SocketAddr)>) -> Option<u8>
        ensures passed { self.new.passed ≡ self.old.passed }
        ensures taken { IfSome result (IsTakenIn comer self.old.connections.nodes self.old.connections.lines.items self.new.connections.lines.items) }
        ensures stay { IsNone result → self.new.connections.lines.items ≡ self.old.connections.lines.items }
        ensures nodes { self.new.connections.nodes ≡ self.old.connections.nodes }
    {
        let came = came?;
        self.has_more = true;
        let now = self.moment();
        self.connections.take_in(&self.poll, comer, came, now)
    }

    /// Takes in the next one who dialled and for whom there is a place, and answers it. Those before him are turned away, for
    /// `TURNING_AWAY` at most: who is behind them waits for the next call.
    fn take_caller(&mut self) -> Option<u8>
        ensures passed { self.new.passed ≡ self.old.passed }
        ensures taken { IfSome result (IsTakenIn Calling self.old.connections.nodes self.old.connections.lines.items self.new.connections.lines.items) }
        ensures stay { IsNone result → self.new.connections.lines.items ≡ self.old.connections.lines.items }
        ensures nodes { self.new.connections.nodes ≡ self.old.connections.nodes }
    {
        let begun = self.moment();
        for _ in 0..self.left {
            let came = self.ports.next_caller()?;
            self.left = self.left.saturating_sub(1);
            if let Some(place) = self.take_in(Comer::Caller, Some(came)) {
                return Some(place);
            }
            self.turned_away = self.turned_away.saturating_add(1);
            if self.moment().saturating_sub(begun) >= TURNING_AWAY {
                return None;
            }
        }
        None
    }

    /// Takes in the bot that came next to a seat's port, if one did.
    fn take_in_bot(&mut self, seat: u8) -> bool
        ensures { self.new.passed ≡ self.old.passed }
    {
        let Some((stream, from)) = self.ports.next_at_seat(seat) else {
            return false;
        };
        self.has_more = true;
        let who = self.known(from);
        self.connections
            .begin(&self.poll, Line::Seat(seat), stream, who)
            .is_ok()
    }
}

impl Wire for TcpWire<'_> {
    ghost use Rattle.node_wires.specs.Places.{IsTakenIn};
    ghost use Rattle.node_wires.specs.Sending.{IsSentAt, AllSent};

    ghost passed = { λ wire. wire.passed.items };

    /// Where the clock can't be read, or shows less, it is the moment that was seen last.
    #[tactic(auto, using(crate::proofs::Moments::timely_seen, crate::proofs::Moments::timely_later, crate::proofs::Moments::reached))]
    fn now(&mut self) -> u64 {
        self.seen = self.seen.max(self.moment());
        self.passed.saw(self.seen);
        self.seen
    }

    /// Sends first what was gathered. Where somebody was taken off a queue since the last wait, more may stand there, of whom
    /// the system doesn't tell again: then it isn't waited.
    #[tactic(auto, using(crate::proofs::Moments::order_waited, crate::proofs::Moments::latest_waited))]
    fn wait(&mut self, most: u64) {
        self.flush();
        self.poll_for(if self.has_more { 0 } else { most });
        self.passed.waited(most);
    }

    #[tactic(auto, using(crate::proofs::Moments::order_called, crate::proofs::Moments::latest_called))]
    fn called(&mut self) {
        self.passed.called();
    }

    fn draw(&mut self) -> Option<[u8; 32]> {
        let mut bytes = [0; 32];
        match self.rt.fill_bytes(&mut bytes) {
            Ok(()) => Some(bytes),
            Err(_) => None,
        }
    }

    fn source(&mut self, line: Line) -> Option<IpAddr> {
        self.connections.source(line)
    }

    #[tactic(auto, using(crate::proofs::Moments::order_began, crate::proofs::Moments::latest_began))]
    fn dial(&mut self, peer: u8) -> Result<(), WireFault> {
        match self.begin_dial(peer) {
            Ok(()) => {
                self.passed.began(Line::Peer(peer));
                Ok(())
            }
            Err(fault) => {
                self.fail_peer(peer, fault.kind());
                Err(fault_of(fault.kind()))
            }
        }
    }

    /// Those for whom there is no place are turned away, up to 512 of them in a turn and for 10 ms by one call, until one comes for
    /// whom there is one.
    /// Places are kept for nodes: one that is kept for a node is taken by nobody but who comes from an address from which that
    /// node dials, and he takes no other. Nobody makes room for a stranger before he has stood 0.3 seconds at a place that
    /// isn't kept. All other connections stay as they are.
    #[tactic(auto, using(crate::proofs::Moments::order_began, crate::proofs::Moments::latest_began))]
    fn accept(&mut self) -> Option<u8>
        ensures began { IfSome result (λ place. self.new.passed.items ≡ self.old.passed.items ++ Began (Caller place) ∷ []) }
        ensures none { IsNone result → self.new.passed.items ≡ self.old.passed.items }
        ensures taken { IfSome result (IsTakenIn Calling self.old.connections.nodes self.old.connections.lines.items self.new.connections.lines.items) }
        ensures stay { IsNone result → self.new.connections.lines.items ≡ self.old.connections.lines.items }
    {
        let place = self.take_caller()?;
        self.passed.began(Line::Caller(place));
        Some(place)
    }

    fn turned_away(&self) -> u64
        ensures { result ≡ self.now.turned_away }
    {
        self.turned_away
    }

    #[tactic(auto, using(crate::proofs::Moments::order_began, crate::proofs::Moments::latest_began))]
    fn accept_seat(&mut self, seat: u8) -> bool {
        if !self.take_in_bot(seat) {
            return false;
        }
        self.passed.began(Line::Seat(seat));
        true
    }

    /// He has a place of those of any seat: a free one, or that of the stranger who came first and has stood 0.3 seconds there;
    /// where there is none, or too many of his address stand there, a free one of his seat alone.
    #[tactic(auto, using(crate::proofs::Moments::order_began, crate::proofs::Moments::latest_began))]
    fn accept_guest(&mut self, seat: u8) -> Option<u8>
        ensures began { IfSome result (λ place. self.new.passed.items ≡ self.old.passed.items ++ Began (Guest place) ∷ []) }
        ensures none { IsNone result → self.new.passed.items ≡ self.old.passed.items }
        ensures taken { IfSome result (IsTakenIn (Guesting seat) self.old.connections.nodes self.old.connections.lines.items self.new.connections.lines.items) }
        ensures stay { IsNone result → self.new.connections.lines.items ≡ self.old.connections.lines.items }
    {
        let came = self.ports.next_at_seat(seat);
        let place = self.take_in(Comer::Guest(seat), came)?;
        self.passed.began(Line::Guest(place));
        Some(place)
    }

    #[tactic(auto, using(crate::proofs::Moments::order_gave, crate::proofs::Moments::latest_gave))]
    fn seat_guest(&mut self, place: u8, seat: u8) -> bool {
        if !self.connections.seat_guest(&self.poll, place, seat) {
            return false;
        }
        self.passed.gave(place, seat);
        true
    }

    #[tactic(auto, using(crate::proofs::Moments::order_began, crate::proofs::Moments::latest_began))]
    fn accept_asker(&mut self) -> Option<u8> {
        let came = self.ports.next_asker();
        let place = self.take_in(Comer::Asker, came)?;
        self.passed.began(Line::Asker(place));
        Some(place)
    }

    #[tactic(auto, using(crate::proofs::Moments::order_came, crate::proofs::Moments::latest_came, crate::proofs::Moments::order_halted, crate::proofs::Moments::latest_halted))]
    fn read(&mut self, line: Line, piece: &mut [u8]) -> Result<usize, Halt> {
        match self.connections.read(line, piece) {
            Ok(count) => {
                self.passed.came(line, &piece[..count]);
                Ok(count)
            }
            Err(halt) => {
                self.passed.halted(line, Way::Reading, halt);
                Err(halt)
            }
        }
    }

    /// What is written to another node is gathered, and sent by the first write to another line or the next `flush`, `wait` or
    /// `close`, by one call of the system; what is written to others is sent at once.
    #[tactic(auto, using(crate::proofs::Moments::order_wrote, crate::proofs::Moments::latest_wrote, crate::proofs::Moments::order_halted, crate::proofs::Moments::latest_halted))]
    fn write(&mut self, line: Line, bytes: &[u8]) -> Result<usize, Halt>
        ensures within { IfOk result (λ count. count ≤ length bytes.now) }
        ensures wrote { IfOk result (λ count. self.new.passed.items ≡ self.old.passed.items ++ Wrote line (take count bytes.now) ∷ []) }
        ensures halted { IfErr result (λ halt. self.new.passed.items ≡ self.old.passed.items ++ halted_as Writing line halt ∷ []) }
        ensures sent { IfSome self.old.connections.written (λ before. self.old.connections.written ≢ place_of line → IsSentAt self.new.connections.lines.items before) }
    {
        match self.connections.write(line, bytes) {
            Ok(count) => {
                self.passed.wrote(line, &bytes[..count]);
                Ok(count)
            }
            Err(halt) => {
                self.passed.halted(line, Way::Writing, halt);
                Err(halt)
            }
        }
    }

    /// Sends what was gathered for each line, as far as there is room: of a line whose connection has room and hasn't failed
    /// nothing waits then.
    fn flush(&mut self)
        ensures passed { self.new.passed.items ≡ self.old.passed.items }
        ensures sent { AllSent self.new.connections.lines.items }
    {
        self.connections.flush();
    }

    fn know(&mut self, line: Line) {
        self.connections.know(line);
    }

    #[tactic(auto, using(crate::proofs::Moments::order_closed, crate::proofs::Moments::latest_closed))]
    fn close(&mut self, line: Line) {
        self.connections.close(line);
        self.passed.closed(line);
    }

    #[tactic(auto, using(crate::proofs::Moments::order_logged, crate::proofs::Moments::latest_logged))]
    fn add_to_log(&mut self, text: &[u8]) -> Result<(), WireFault> {
        let Some(log) = &mut self.log else {
            return Err(WireFault::Failed);
        };
        match append(log, text) {
            Ok(()) => {
                self.passed.logged(text);
                Ok(())
            }
            Err(kind) => {
                self.failed = Some(Failed::Log { kind });
                Err(fault_of(kind))
            }
        }
    }

    ghost in_order = { λ wire. wire.timely.0 };
}
