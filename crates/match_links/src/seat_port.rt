ghost use Rattle.std.specs.Prelude.{◌≤◌, length, IfOk};

use crate::held::Held;
use crate::limits::HELD;
use crate::links::LinkFault;
use crate::port_fault::PortFault;
use crate::seated::Seated;
use crate::turned_away::TurnedAway;
use crate::waiters::Waiters;
use crate::watch::Watch;
use mio::net::{TcpListener, TcpStream};
use std::alloc::{AllocError, Global};
use std::io;
use std::net::{Ipv4Addr, SocketAddr};
use std::time::Duration;

/// How many connections are taken in or passed over at one look.
const AT_ONE_LOOK: usize = 256;

/// A seat's port at a node: who waits there, and who sits.
#[derive(Drop)]
pub(crate) struct SeatPort {
    number: u16,
    /// None while the port is closed.
    listener: Option<TcpListener>,
    waiters: Waiters,
    seated: Option<Seated>,
}

impl SeatPort {
    /// Binds the port of this number. Nobody waits there yet.
    pub(crate) fn bind(
        rt: &HostRuntime,
        number: u16,
        watch: &Watch,
    ) -> Result<SeatPort, PortFault> {
        match listen(rt, number, watch) {
            Ok(listener) => Ok(SeatPort {
                number,
                listener: Some(listener),
                waiters: Waiters::new(rt.alloc()),
                seated: None,
            }),
            Err(fault) => Err(PortFault::of(number, fault.kind())),
        }
    }

    /// Binds the port where it is closed.
    pub(crate) fn open(&mut self, rt: &HostRuntime, watch: &Watch) -> io::Result<()> {
        if self.listener.is_none() {
            self.listener = Some(listen(rt, self.number, watch)?);
        }
        Ok(())
    }

    /// Closes the port, and lets go of who waits there. Who sits stays.
    pub(crate) fn close_listener(&mut self) {
        self.listener = None;
        self.waiters.clear();
    }

    pub(crate) fn is_open(&self) -> bool {
        self.listener.is_some()
    }

    /// Waits for the next piece of who sits, so long at most, and reads it.
    pub(crate) fn read(
        &mut self,
        rt: &HostRuntime,
        most: Duration,
        piece: &mut [u8],
    ) -> Result<usize, LinkFault>
        ensures { IfOk result (λ count. count ≤ length piece.new) }
    {
        match &mut self.seated {
            Some(seated) => seated.read(rt, most, piece),
            None => Err(LinkFault::Failed),
        }
    }

    /// Sends a line to who sits.
    pub(crate) fn write(&mut self, buffer: &mut Vec<u8>, line: &[u8]) -> io::Result<()> {
        match &mut self.seated {
            Some(seated) => seated.send_line(buffer, line),
            None => Err(io::Error::from(io::ErrorKind::NotConnected)),
        }
    }

    /// Takes leave of who sits, if anybody does.
    pub(crate) fn part(&mut self) {
        if let Some(seated) = &mut self.seated {
            // A seat whose connection has failed has nothing more to read.
            let _ = seated.take_leave();
        }
    }

    /// Ends the connection of who sits.
    pub(crate) fn hang_up(&mut self) {
        self.seated = None;
    }

    /// Seats the first of those who wait that can be seated, and says whether somebody was. Who sends nothing holds
    /// nobody else. Want of memory leaves all waiting.
    pub(crate) fn seat(&mut self, alloc: Global, watch: &Watch) -> Result<bool, AllocError> {
        self.waiters.look();
        for _ in 0..AT_ONE_LOOK {
            match self.waiters.take_first() {
                Some(held) => {
                    // One whose connection can't be prepared is passed over.
                    if let Ok(seated) = held.seat(watch) {
                        self.seated = Some(seated);
                        return Ok(true);
                    }
                }
                None => {
                    if !self.take_in(alloc, watch)? {
                        return Ok(false);
                    }
                }
            }
        }
        Ok(false)
    }

    /// Takes in the next one of the system's queue. It says whether there was one: none too where as many are held as
    /// may be, or the system has no handle left for one more.
    fn take_in(&mut self, alloc: Global, watch: &Watch) -> Result<bool, AllocError> {
        if self.waiters.is_full() {
            return Ok(false);
        }
        // Made first: want of memory leaves the connection in the queue.
        let input = self.waiters.make_room(alloc)?;
        let Some(mut stream) = self.accept() else {
            return Ok(false);
        };
        // One that can't be watched is looked at all the same, a little later.
        let _ = watch.add(&mut stream);
        let mut held = Held::new(stream, input);
        held.look();
        if !held.is_over() {
            self.waiters.add(held)?;
        }
        Ok(true)
    }

    /// The next connection of the system's queue; none where the system gives none.
    fn accept(&self) -> Option<TcpStream> {
        match &self.listener {
            Some(listener) => match listener.accept() {
                Ok((stream, _)) => Some(stream),
                Err(_) => None,
            },
            None => None,
        }
    }

    /// Turns away who waits here, since the seat is awaited elsewhere. Who finds no place among them waits on.
    pub(crate) fn turn_away(&mut self, rt: &HostRuntime, turned_away: &mut TurnedAway) {
        for _ in 0..HELD {
            if !turned_away.has_room() {
                return;
            }
            match self.let_go() {
                Some(stream) => turned_away.add(rt, stream),
                None => return,
            }
        }
    }

    /// Lets go of one who waits here.
    fn let_go(&mut self) -> Option<TcpStream> {
        match self.waiters.pop() {
            Some(held) => Some(held.into_stream()),
            None => self.accept(),
        }
    }
}

/// Listens at a port of this machine, and has it watched.
fn listen(rt: &HostRuntime, number: u16, watch: &Watch) -> io::Result<TcpListener> {
    let mut listener = TcpListener::bind(rt, SocketAddr::from((Ipv4Addr::LOCALHOST, number)))?;
    watch.add(&mut listener)?;
    Ok(listener)
}
