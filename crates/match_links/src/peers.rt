use crate::port_fault::PortFault;
use crate::port_numbers::PortNumbers;
use std::alloc::AllocError;
use std::io;
use std::io::{Read, Write};
use std::net::{Ipv4Addr, TcpListener, TcpStream};

/// Both ends of the connection from one node to another.
#[derive(Drop)]
struct Pair {
    near: TcpStream,
    far: TcpStream,
}

/// The nodes' connections to each other.
#[derive(Drop)]
pub(crate) struct Peers {
    numbers: PortNumbers,
    /// Where nodes await each other.
    doors: Vec<TcpListener>,
    /// The connections of nodes, by sender and then by receiver; a node has none to itself.
    pairs: Vec<Option<Pair>>,
}

impl Peers {
    /// Binds the nodes' ports, and connects the nodes to each other.
    pub(crate) fn bind(rt: &HostRuntime, numbers: PortNumbers) -> Result<Peers, PortFault> {
        let alloc = rt.alloc();
        let nodes = numbers.nodes;
        let mut peers = Peers {
            numbers,
            doors: Vec::with_capacity(alloc, nodes)?,
            pairs: Vec::with_capacity(alloc, nodes * nodes)?,
        };
        peers.bind_doors(rt)?;
        peers.join_all(rt)?;
        Ok(peers)
    }

    fn bind_doors(&mut self, rt: &HostRuntime) -> Result<(), PortFault> {
        for node in 0..self.numbers.nodes {
            let door = bind(rt, self.numbers.door(node))?;
            push(&mut self.doors, door)?;
        }
        Ok(())
    }

    fn join_all(&mut self, rt: &HostRuntime) -> Result<(), PortFault> {
        for from in 0..self.numbers.nodes {
            for to in 0..self.numbers.nodes {
                let pair = self.join(rt, from, to)?;
                push(&mut self.pairs, pair)?;
            }
        }
        Ok(())
    }

    /// Connects a node to another.
    fn join(&self, rt: &HostRuntime, from: usize, to: usize) -> Result<Option<Pair>, PortFault> {
        if from == to {
            return Ok(None);
        }
        let port = self.numbers.door(to);
        match self.doors.get(to) {
            Some(door) => match join(rt, port, door) {
                Ok(pair) => Ok(Some(pair)),
                Err(fault) => Err(PortFault::Port {
                    port,
                    kind: fault.kind(),
                }),
            },
            None => Err(PortFault::Port {
                port,
                kind: io::ErrorKind::Other,
            }),
        }
    }

    /// The connection of two nodes.
    fn pair(&mut self, from: u8, to: u8) -> io::Result<&mut Pair> {
        let place = from as usize * self.numbers.nodes + to as usize;
        match self.pairs.get_mut(place) {
            Some(Some(pair)) => Ok(pair),
            _ => Err(io::Error::from(io::ErrorKind::Other)),
        }
    }

    /// Writes a frame to the connection of two nodes.
    pub(crate) fn send(&mut self, from: u8, to: u8, frame: &[u8]) -> io::Result<()> {
        self.pair(from, to)?.near.write_all(frame)
    }

    /// Fills the buffer from the other end of the connection of two nodes.
    pub(crate) fn receive(&mut self, from: u8, to: u8, frame: &mut [u8]) -> io::Result<()> {
        self.pair(from, to)?.far.read_exact(frame)
    }
}

fn push<T: Drop>(items: &mut Vec<T>, item: T) -> Result<(), AllocError> {
    items.push(item)?;
    Ok(())
}

fn bind(rt: &HostRuntime, port: u16) -> Result<TcpListener, PortFault> {
    match TcpListener::bind(rt, (Ipv4Addr::LOCALHOST, port)) {
        Ok(listener) => Ok(listener),
        Err(fault) => Err(PortFault::of(port, fault.kind())),
    }
}

/// Connects to a port, and accepts that connection there. Others who connected are turned away.
fn join(rt: &HostRuntime, port: u16, door: &TcpListener) -> io::Result<Pair> {
    let near = TcpStream::connect(rt, (Ipv4Addr::LOCALHOST, port))?;
    near.set_nodelay(true)?;
    let own = near.local_addr()?;
    for far in door.incoming() {
        let far = far?;
        if far.peer_addr()? == own {
            return Ok(Pair { near, far });
        }
    }
    Err(io::Error::from(io::ErrorKind::Other))
}
