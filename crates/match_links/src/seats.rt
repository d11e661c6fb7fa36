ghost use Rattle.std.specs.Prelude.{◌≤◌, length, IfOk};

use crate::deadline::Deadline;
use crate::limits::WAIT_SECONDS;
use crate::links::LinkFault;
use crate::port_fault::{Failed, PortFault};
use crate::port_numbers::PortNumbers;
use crate::seat_port::SeatPort;
use crate::turned_away::TurnedAway;
use crate::watch::Watch;
use std::alloc::AllocError;
use std::io;
use std::time::Duration;

/// How long the lines are for which there is room from the start.
const LINE: usize = 8192;

/// The connections of seats to nodes.
#[derive(Drop)]
pub(crate) struct Seats {
    numbers: PortNumbers,
    /// The seats' ports, node by node.
    ports: Vec<SeatPort>,
    watch: Watch,
    /// By seat: whether it is turned away wherever it comes, to the end.
    unwanted: Vec<bool>,
    /// Who came to a port at which the seat isn't awaited; nobody between two calls.
    turned_away: TurnedAway,
    /// How long a wait takes at most.
    wait: Duration,
    line: Vec<u8>,
}

impl Seats {
    /// Binds all seats' ports.
    pub(crate) fn bind(rt: &HostRuntime, numbers: PortNumbers) -> Result<Seats, PortFault> {
        let alloc = rt.alloc();
        let watch = match Watch::new(rt) {
            Ok(watch) => watch,
            Err(fault) => return Err(PortFault::of(numbers.first, fault.kind())),
        };
        let mut seats = Seats {
            numbers,
            ports: Vec::with_capacity(alloc, numbers.nodes * numbers.players)?,
            watch,
            unwanted: vec![in alloc; false; numbers.players]?,
            turned_away: TurnedAway::new(alloc),
            wait: Duration::from_secs(WAIT_SECONDS),
            line: Vec::with_capacity(alloc, LINE)?,
        };
        seats.bind_all(rt)?;
        Ok(seats)
    }

    fn bind_all(&mut self, rt: &HostRuntime) -> Result<(), PortFault> {
        for node in 0..self.numbers.nodes as u8 {
            for seat in 0..self.numbers.players as u8 {
                let port = SeatPort::bind(rt, self.numbers.seat(node, seat), &self.watch)?;
                push(&mut self.ports, port)?;
            }
        }
        Ok(())
    }

    /// How long a wait takes at most from now on.
    pub(crate) fn set_wait(&mut self, wait: Duration) {
        self.wait = wait;
    }

    /// Waits for a connection of a seat at a node that can be seated, and seats it; slow where none comes in time, and
    /// then all wait on. While none can be, whoever comes to that seat's port at another node is turned away.
    pub(crate) fn accept(&mut self, rt: &HostRuntime, node: u8, seat: u8) -> Result<(), LinkFault> {
        let answer = self.await_one(rt, node, seat);
        self.turned_away.close_all();
        answer
    }

    fn await_one(&mut self, rt: &HostRuntime, node: u8, seat: u8) -> Result<(), LinkFault> {
        let Ok(deadline) = Deadline::after(rt, self.wait) else {
            return Err(LinkFault::Failed);
        };
        for _ in 0..u64::MAX {
            if self.seat_one(rt, node, seat)? {
                return Ok(());
            }
            let Ok(left) = deadline.left(rt) else {
                return Err(LinkFault::Failed);
            };
            if left.is_zero() {
                break;
            }
            self.turn_others_away(rt, node, seat);
            self.pause(rt, left)?;
        }
        Err(LinkFault::Slow)
    }

    /// Seats the first that can be seated at its own port, and says whether somebody was.
    fn seat_one(&mut self, rt: &HostRuntime, node: u8, seat: u8) -> Result<bool, LinkFault> {
        let place = self.numbers.place(node, seat);
        match self.ports.get_mut(place) {
            Some(port) if port.is_open() => match port.seat(rt.alloc(), &self.watch) {
                Ok(seated) => Ok(seated),
                Err(_) => Err(LinkFault::OutOfMemory),
            },
            _ => Err(LinkFault::Failed),
        }
    }

    /// Whoever comes for a seat is turned away from now on, in each wait and at every node.
    pub(crate) fn turn_away(&mut self, seat: u8) {
        if let Some(unwanted) = self.unwanted.get_mut(seat as usize) {
            *unwanted = true;
        }
    }

    /// Turns away who waits for a seat at other nodes than this, and for seats that are turned away at all; and closes those
    /// whose time has come.
    fn turn_others_away(&mut self, rt: &HostRuntime, node: u8, seat: u8) {
        self.turn_unwanted_away(rt);
        for other in 0..self.numbers.nodes as u8 {
            if other != node {
                self.turn_away_at(rt, other, seat);
            }
        }
    }

    /// Turns away who waits for seats that are turned away at all, and closes those whose time has come.
    fn turn_unwanted_away(&mut self, rt: &HostRuntime) {
        self.turned_away.close_due(rt);
        for seat in 0..self.numbers.players as u8 {
            if self.is_unwanted(seat) {
                self.turn_away_everywhere(rt, seat);
            }
        }
    }

    fn is_unwanted(&self, seat: u8) -> bool {
        self.unwanted.get(seat as usize).copied().unwrap_or(false)
    }

    fn turn_away_everywhere(&mut self, rt: &HostRuntime, seat: u8) {
        for node in 0..self.numbers.nodes as u8 {
            self.turn_away_at(rt, node, seat);
        }
    }

    fn turn_away_at(&mut self, rt: &HostRuntime, node: u8, seat: u8) {
        let place = self.numbers.place(node, seat);
        if let Some(port) = self.ports.get_mut(place) {
            port.turn_away(rt, &mut self.turned_away);
        }
    }

    /// Waits until anything comes, or one that is turned away is to be closed; so long at most. It is never long: who
    /// couldn't be taken in for want of a handle is looked for again.
    fn pause(&mut self, rt: &HostRuntime, left: Duration) -> Result<(), LinkFault> {
        let most = left.min(self.turned_away.next_due(rt));
        match self.watch.wait(most) {
            Ok(()) => Ok(()),
            Err(_) => Err(LinkFault::Failed),
        }
    }

    /// Waits for the next piece of a seat at a node, and reads it. Meanwhile those are turned away who come for seats that
    /// are turned away at all.
    pub(crate) fn read(
        &mut self,
        rt: &HostRuntime,
        node: u8,
        seat: u8,
        piece: &mut [u8],
    ) -> Result<usize, LinkFault>
        ensures { IfOk result (λ count. count ≤ length piece.new) }
    {
        if !self.unwanted.iter().any(|unwanted| *unwanted) {
            return self.read_at(rt, node, seat, self.wait, piece);
        }
        let answer = self.read_between(rt, node, seat, piece);
        self.turned_away.close_all();
        answer
    }

    /// Waits for the next piece of a seat at a node, so long at most, and reads it.
    fn read_at(
        &mut self,
        rt: &HostRuntime,
        node: u8,
        seat: u8,
        most: Duration,
        piece: &mut [u8],
    ) -> Result<usize, LinkFault>
        ensures { IfOk result (λ count. count ≤ length piece.new) }
    {
        let place = self.numbers.place(node, seat);
        match self.ports.get_mut(place) {
            Some(port) => port.read(rt, most, piece),
            None => Err(LinkFault::Failed),
        }
    }

    /// Waits for the next piece in short waits, and between them turns those away who come for seats that are turned away
    /// at all.
    fn read_between(
        &mut self,
        rt: &HostRuntime,
        node: u8,
        seat: u8,
        piece: &mut [u8],
    ) -> Result<usize, LinkFault>
        ensures { IfOk result (λ count. count ≤ length piece.new) }
    {
        let Ok(deadline) = Deadline::after(rt, self.wait) else {
            return Err(LinkFault::Failed);
        };
        for _ in 0..u64::MAX {
            self.turn_unwanted_away(rt);
            let Ok(left) = deadline.left(rt) else {
                return Err(LinkFault::Failed);
            };
            let most = left.min(self.turned_away.next_due(rt));
            match self.read_at(rt, node, seat, most, piece) {
                Err(LinkFault::Slow) if !left.is_zero() => {}
                answer => return answer,
            }
        }
        Err(LinkFault::Slow)
    }

    /// Sends a line to a seat at a node.
    pub(crate) fn write(&mut self, node: u8, seat: u8, line: &[u8]) -> Result<(), LinkFault> {
        let place = self.numbers.place(node, seat);
        let Some(port) = self.ports.get_mut(place) else {
            return Err(LinkFault::Failed);
        };
        match port.write(&mut self.line, line) {
            Ok(()) => Ok(()),
            Err(_) => Err(LinkFault::Failed),
        }
    }

    /// Ends the connection of a seat to a node.
    pub(crate) fn hang_up(&mut self, node: u8, seat: u8) {
        let place = self.numbers.place(node, seat);
        if let Some(port) = self.ports.get_mut(place) {
            port.hang_up();
        }
    }

    /// Binds the ports of a node that are closed.
    pub(crate) fn open(&mut self, rt: &HostRuntime, node: u8) -> Result<(), Failed> {
        for seat in 0..self.numbers.players as u8 {
            self.open_one(rt, node, seat)?;
        }
        Ok(())
    }

    fn open_one(&mut self, rt: &HostRuntime, node: u8, seat: u8) -> Result<(), Failed> {
        let number = self.numbers.seat(node, seat);
        let place = self.numbers.place(node, seat);
        let answer = match self.ports.get_mut(place) {
            Some(port) => port.open(rt, &self.watch),
            None => Err(io::Error::from(io::ErrorKind::Other)),
        };
        match answer {
            Ok(()) => Ok(()),
            Err(fault) => Err(Failed::Port {
                port: number,
                kind: fault.kind(),
            }),
        }
    }

    /// Takes leave of who sits at a node.
    pub(crate) fn part(&mut self, node: u8) {
        for seat in 0..self.numbers.players as u8 {
            let place = self.numbers.place(node, seat);
            if let Some(port) = self.ports.get_mut(place) {
                port.part();
            }
        }
    }

    /// Closes the ports of a node, and the connections to it.
    pub(crate) fn close_node(&mut self, node: u8) {
        // All ports first: a bot that is hung up and dials again is refused at once.
        for seat in 0..self.numbers.players as u8 {
            self.close_port(node, seat);
        }
        for seat in 0..self.numbers.players as u8 {
            self.hang_up(node, seat);
        }
    }

    fn close_port(&mut self, node: u8, seat: u8) {
        let place = self.numbers.place(node, seat);
        if let Some(port) = self.ports.get_mut(place) {
            port.close_listener();
        }
    }
}

fn push<T: Drop>(items: &mut Vec<T>, item: T) -> Result<(), AllocError> {
    items.push(item)?;
    Ok(())
}
