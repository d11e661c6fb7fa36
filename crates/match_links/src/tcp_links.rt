//! Links over TCP on this machine, and logs in files.

ghost use Rattle.std.specs.Prelude.{◌≡◌, ◌≤◌, ◌<◌, ◌+◌, ◌*◌, IsErr, Some};

use crate::limits::NODES;
use crate::links::{LinkFault, Links};
use crate::passages::Passages;
use crate::peers::Peers;
use crate::port_fault::{Failed, PortFault};
use crate::port_numbers::PortNumbers;
use crate::seats::Seats;
use std::alloc::AllocError;
use std::fs::File;
use std::io;
use std::io::Write;
use std::time::Duration;

/// Links over TCP on 127.0.0.1, and logs in files that are open.
///
/// With n players and m nodes, seat s at node i is at the port `port + i * n + s`, and node i awaits the others at
/// `port + m * n + i`. The seats' ports of a node are open while it runs.
///
/// `accept` and `read` wait five seconds at most, by the system's clock, also where bytes come now and then; then they
/// answer `Slow`, and who waits at a port goes on waiting.
///
/// `accept` seats the first of those who wait at its port that has a whole piece, or has ended behind some bytes, in order
/// of arrival. Who ended without a byte is passed over, and who sends nothing holds nobody else. At most 16 are held at a
/// port, and the rest stay in the system's queue; so they do where the system has no handle left. While nobody can be
/// seated, who comes to that seat's port at another running node, or waits there, is turned away: the connection is
/// closed 0.2 s later, and at the latest when the wait ends. So is, in each wait, whoever comes for a seat that is turned
/// away to the end, at every running node.
pub struct TcpLinks<'a> {
    rt: &'a HostRuntime,
    numbers: PortNumbers,
    seats: Seats,
    peers: Peers,
    logs: Vec<File>,
    /// What failed last of ports, connections of nodes and logs.
    failed: Option<Failed>,
    /// What passed over the seats' connections and into the logs, for clauses alone.
    passed: Passages,
}

/// By hand, so that letting one go is one call for whoever owns it (docs/ARCHITECTURE.md, Habits).
impl Drop for TcpLinks<'_> {
    fn drop(self) {
        let TcpLinks {
            rt: _,
            numbers: _,
            seats: _,
            peers: _,
            logs: _,
            failed: _,
            passed: _,
        } = self;
    }
}

impl<'a> TcpLinks<'a> {
    /// Binds all ports of a match from this one on, and connects its nodes to each other. There are no logs yet.
    ///
    /// Refused is the first port that can't be bound or reached, or want of memory.
    pub fn bind(
        rt: &'a HostRuntime,
        port: u16,
        nodes: usize,
        players: usize,
    ) -> Result<TcpLinks<'a>, PortFault>
        requires low { port ≤ 65000 }
        requires nodes { nodes ≤ NODES }
        requires players { players ≤ 10 }
    {
        let numbers = PortNumbers {
            first: port,
            nodes,
            players,
        };
        Ok(TcpLinks {
            rt,
            numbers,
            seats: Seats::bind(rt, numbers)?,
            peers: Peers::bind(rt, numbers)?,
            logs: Vec::with_capacity(rt.alloc(), nodes)?,
            failed: None,
            passed: Passages::new(),
        })
    }

    /// How long `accept` and `read` wait at most from now on; five seconds where nothing is said.
    pub fn set_wait(&mut self, wait: Duration) {
        self.seats.set_wait(wait);
    }

    /// Adds the log of the next node: a file that is open for appending.
    pub fn add_log(&mut self, log: File) -> Result<(), AllocError> {
        self.logs.push(log)?;
        Ok(())
    }

    /// What failed last of the nodes' ports, their connections and the logs, if anything did: which port or which log,
    /// and the kind of the system's error.
    pub fn failed(&self) -> Option<Failed>
        ensures { result ≡ self.now.failed }
    {
        self.failed
    }

    /// The port of a seat at a node; both are below their counts. For who calls the seats: the
    /// numbers are private.
    pub fn seat_port(&self, node: u8, seat: u8) -> u16
        ensures { node < self.now.numbers.nodes → seat < self.now.numbers.players
            → result ≡ self.now.numbers.first + node * self.now.numbers.players + seat }
    {
        self.numbers.seat(node, seat)
    }

    /// Notes what failed.
    fn fail(&mut self, what: Failed) -> Result<(), LinkFault>
        ensures failed { IsErr result }
        ensures same { self.new.passed ≡ self.old.passed }
        ensures what { self.new.failed ≡ Some what }
    {
        self.failed = Some(what);
        Err(LinkFault::Failed)
    }

    /// Notes that the connection to a node failed.
    fn fail_peer(&mut self, node: u8, kind: io::ErrorKind) -> Result<(), LinkFault>
        ensures failed { IsErr result }
        ensures same { self.new.passed ≡ self.old.passed }
    {
        let port = self.numbers.door(node as usize);
        self.fail(Failed::Port { port, kind })
    }
}

/// The log of a node.
fn log_at(logs: &mut Vec<File>, node: u8) -> io::Result<&mut File> {
    match logs.get_mut(node as usize) {
        Some(log) => Ok(log),
        None => Err(io::Error::from(io::ErrorKind::Other)),
    }
}

/// Empties the log of a node.
fn empty(logs: &mut Vec<File>, node: u8) -> io::Result<()> {
    log_at(logs, node)?.set_len(0)
}

/// Puts text behind what the log of a node has.
fn add(logs: &mut Vec<File>, node: u8, text: &[u8]) -> io::Result<()> {
    log_at(logs, node)?.write_all(text)
}

impl Links for TcpLinks<'_> {
    ghost passed = { λ links. links.passed.items };

    /// What is told, logged and sent goes to the system at once, and wants no room here.
    fn reserve(&mut self, _lines: usize, _text: usize) -> Result<(), AllocError> {
        Ok(())
    }

    fn accept(&mut self, node: u8, seat: u8) -> Result<(), LinkFault> {
        self.seats.accept(self.rt, node, seat)?;
        self.passed.sat(node, seat);
        Ok(())
    }

    fn read(&mut self, node: u8, seat: u8, piece: &mut [u8]) -> Result<usize, LinkFault> {
        let count = self.seats.read(self.rt, node, seat, piece)?;
        self.passed.came(node, seat, &piece[..count]);
        Ok(count)
    }

    fn write(&mut self, node: u8, seat: u8, line: &[u8]) -> Result<(), LinkFault> {
        self.seats.write(node, seat, line)?;
        self.passed.told(node, seat, line);
        Ok(())
    }

    fn turn_away(&mut self, seat: u8) {
        self.seats.turn_away(seat);
    }

    fn hang_up(&mut self, node: u8, seat: u8) {
        self.seats.hang_up(node, seat);
    }

    fn send(&mut self, from: u8, to: u8, frame: &[u8]) -> Result<(), LinkFault> {
        match self.peers.send(from, to, frame) {
            Ok(()) => Ok(()),
            Err(fault) => self.fail_peer(to, fault.kind()),
        }
    }

    fn receive(&mut self, from: u8, to: u8, frame: &mut [u8]) -> Result<(), LinkFault> {
        match self.peers.receive(from, to, frame) {
            Ok(()) => Ok(()),
            Err(fault) => self.fail_peer(to, fault.kind()),
        }
    }

    fn empty_log(&mut self, node: u8) -> Result<(), LinkFault> {
        match empty(&mut self.logs, node) {
            Ok(()) => {
                self.passed.emptied(node);
                Ok(())
            }
            Err(fault) => self.fail(Failed::Log {
                node,
                kind: fault.kind(),
            }),
        }
    }

    fn add_to_log(&mut self, node: u8, text: &[u8]) -> Result<(), LinkFault> {
        match add(&mut self.logs, node, text) {
            Ok(()) => {
                self.passed.logged(node, text);
                Ok(())
            }
            Err(fault) => self.fail(Failed::Log {
                node,
                kind: fault.kind(),
            }),
        }
    }

    fn open(&mut self, node: u8) -> Result<(), LinkFault> {
        match self.seats.open(self.rt, node) {
            Ok(()) => Ok(()),
            Err(what) => self.fail(what),
        }
    }

    fn part(&mut self, node: u8) {
        self.seats.part(node);
    }

    fn close_node(&mut self, node: u8) {
        self.seats.close_node(node);
    }
}
