//! The ports at which a node's process listens.

use crate::bind_fault::BindFault;
use crate::limits::{LINES, SEATS};
use mio::net::{TcpListener, TcpStream};
use mio::{Interest, Poll, Token};
use std::io;
use std::io::ErrorKind;
use std::net::SocketAddr;

/// The token of the port where nodes dial; those of seats' ports stand behind it, and those of lines before it.
pub(crate) const DOOR: usize = LINES;

/// The token of the first seat's port.
const SEAT_DOOR: usize = DOOR + 1;

/// The token of the status port.
const STATUS_DOOR: usize = SEAT_DOOR + SEATS;

/// Where a node's process is reached.
#[derive(Clone, Copy)]
pub(crate) struct Reached {
    /// Where other nodes dial it, if they may.
    pub(crate) peers: Option<SocketAddr>,
    /// Where its seat 0 is awaited, and each further one at the port behind.
    pub(crate) seats: SocketAddr,
    /// How many seats there are.
    pub(crate) players: u8,
    /// Where it is asked for its status, if it may be.
    pub(crate) status: Option<SocketAddr>,
}

/// The ports of a node's process.
#[derive(Drop)]
pub(crate) struct Ports {
    /// Where other nodes dial this one, if they may.
    peers: Option<Door>,
    /// Of each seat.
    seats: Vec<Door>,
    /// Where the node is asked for its status, if it may be.
    status: Option<Door>,
}

/// A port, and whether the system told that somebody came.
#[derive(Drop)]
struct Door {
    listener: TcpListener,
    came: bool,
}

impl Door {
    /// Listens at an address, watched under a token.
    fn open(
        rt: &HostRuntime,
        poll: &Poll,
        address: SocketAddr,
        token: usize,
    ) -> Result<Door, BindFault> {
        match watched(rt, poll, address, token) {
            Ok(listener) => Ok(Door {
                listener,
                came: true,
            }),
            Err(fault) => Err(BindFault::of(address, fault.kind())),
        }
    }

    /// The next connection; none where the system has none.
    fn next(&mut self) -> Option<(TcpStream, SocketAddr)> {
        if !self.came {
            return None;
        }
        match self.listener.accept() {
            Ok(came) => Some(came),
            Err(fault) => {
                if fault.kind() == ErrorKind::WouldBlock {
                    self.came = false;
                }
                None
            }
        }
    }
}

/// Listens at an address that is watched under a token, where one is given.
fn open_if_given(
    rt: &HostRuntime,
    poll: &Poll,
    address: Option<SocketAddr>,
    token: usize,
) -> Result<Option<Door>, BindFault> {
    match address {
        Some(address) => Ok(Some(Door::open(rt, poll, address, token)?)),
        None => Ok(None),
    }
}

/// A listener at an address that is watched under a token.
fn watched(
    rt: &HostRuntime,
    poll: &Poll,
    address: SocketAddr,
    token: usize,
) -> io::Result<TcpListener> {
    let mut listener = TcpListener::bind(rt, address)?;
    poll.registry()
        .register(&mut listener, Token(token), Interest::READABLE)?;
    Ok(listener)
}

/// Listens for so many seats, the first at this address and each further one at the port behind.
fn open_seats(
    rt: &HostRuntime,
    poll: &Poll,
    first: SocketAddr,
    players: u8,
) -> Result<Vec<Door>, BindFault> {
    let count = (players as usize).min(SEATS);
    let mut doors = Vec::with_capacity(rt.alloc(), count)?;
    for seat in 0..count {
        let Some(port) = first.port().checked_add(seat as u16) else {
            return Err(BindFault::Failed {
                kind: ErrorKind::InvalidInput,
            });
        };
        let address = SocketAddr::new(first.ip(), port);
        let door = Door::open(rt, poll, address, SEAT_DOOR + seat)?;
        if doors.push(door).is_err() {
            return Err(BindFault::OutOfMemory);
        }
    }
    Ok(doors)
}

impl Ports {
    /// Listens at all of them. Refused is the first that can't be had: that of nodes, those of seats, that of the status.
    pub(crate) fn open(
        rt: &HostRuntime,
        poll: &Poll,
        reached: Reached,
    ) -> Result<Ports, BindFault> {
        let peers = open_if_given(rt, poll, reached.peers, DOOR)?;
        let seats = open_seats(rt, poll, reached.seats, reached.players)?;
        let status = open_if_given(rt, poll, reached.status, STATUS_DOOR)?;
        Ok(Ports {
            peers,
            seats,
            status,
        })
    }

    /// The system told that somebody came to the port of this token.
    pub(crate) fn note(&mut self, token: usize) {
        if token == DOOR {
            if let Some(door) = &mut self.peers {
                door.came = true;
            }
        } else if token == STATUS_DOOR {
            if let Some(door) = &mut self.status {
                door.came = true;
            }
        } else if let Some(seat) = token.checked_sub(SEAT_DOOR) {
            if let Some(door) = self.seats.get_mut(seat) {
                door.came = true;
            }
        }
    }

    /// The next one who dialled.
    pub(crate) fn next_caller(&mut self) -> Option<(TcpStream, SocketAddr)> {
        self.peers.as_mut()?.next()
    }

    /// Where a seat's bot is awaited: the address that the system gave, also where it was asked for any free port.
    pub(crate) fn seat_address(&self, seat: u8) -> Option<SocketAddr> {
        self.seats.get(seat as usize)?.listener.local_addr().ok()
    }

    /// The next one who came to a seat's port.
    pub(crate) fn next_at_seat(&mut self, seat: u8) -> Option<(TcpStream, SocketAddr)> {
        self.seats.get_mut(seat as usize)?.next()
    }

    /// The next one who came to the status port.
    pub(crate) fn next_asker(&mut self) -> Option<(TcpStream, SocketAddr)> {
        self.status.as_mut()?.next()
    }
}
