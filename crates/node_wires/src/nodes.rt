//! The nodes of a match: where each is dialled, and from where it dials.

ghost use Rattle.std.specs.Prelude.{◌≡◌, ◌++◌, ◌∷◌, [], OnOk, OnErr};
ghost use Rattle.node_wires.specs.Nodes.{is_same};

use crate::limits::NODES;
use std::alloc::AllocError;
use std::net::{IpAddr, SocketAddr};

/// The numbers of nodes.
const NUMBERS: [u8; NODES] = [0, 1, 2, 3, 4, 5, 6];

/// An address from which a node dials besides that at which it is dialled.
#[derive(Clone, Copy)]
pub(crate) struct Source {
    node: u8,
    address: IpAddr,
}

/// The nodes of a match, by number.
#[derive(Drop)]
pub(crate) struct Nodes {
    /// The number of this one. Only nodes of greater numbers dial it.
    own: u8,
    /// Where each is dialled.
    addresses: Vec<SocketAddr>,
    /// From where they dial besides.
    sources: Vec<Source>,
}

/// Whether two addresses are the same.
pub(crate) fn is_same(one: IpAddr, other: IpAddr) -> bool
    ensures { result ≡ is_same one other }
{
    match (one, other) {
        (IpAddr::V4(one), IpAddr::V4(other)) => one.octets() == other.octets(),
        (IpAddr::V6(one), IpAddr::V6(other)) => one.segments() == other.segments(),
        _ => false,
    }
}

impl Nodes {
    ghost use Rattle.node_wires.specs.Nodes.{is_at, is_source, dials_from, is_home, source_of};

    /// The nodes that are dialled at these addresses, and dial from nowhere else. This is the one of this number.
    pub(crate) fn new(own: u8, addresses: Vec<SocketAddr>, sources: Vec<Source>) -> Nodes
        ensures own { result.own ≡ own }
        ensures addresses { result.addresses ≡ addresses }
        ensures sources { result.sources ≡ sources }
    {
        Nodes {
            own,
            addresses,
            sources,
        }
    }

    /// A node dials from this address besides. Where memory is refused all is as it was.
    pub(crate) fn add_source(&mut self, node: u8, address: IpAddr) -> Result<(), AllocError>
        ensures own { self.new.own ≡ self.old.own }
        ensures addresses { self.new.addresses ≡ self.old.addresses }
        ensures added { OnOk result (self.new.sources.items ≡ self.old.sources.items ++ source_of node address ∷ []) }
        ensures refused { OnErr result (self.new.sources.items ≡ self.old.sources.items) }
    {
        match self.sources.push(Source { node, address }) {
            Ok(()) => Ok(()),
            Err(_) => Err(AllocError),
        }
    }

    /// Where a node is dialled, by the number of a line to it.
    pub(crate) fn address(&self, line: u8) -> Option<SocketAddr> {
        self.addresses.get(line as usize % NODES).copied()
    }

    /// Whether a node is dialled at this address, whatever the port.
    fn is_at(&self, node: u8, address: IpAddr) -> bool
        ensures { result ≡ is_at self.now.addresses.items node address }
    {
        match self.addresses.get(node as usize) {
            Some(own) => is_same(own.ip(), address),
            None => false,
        }
    }

    /// Whether this address is among those from which a node dials besides.
    fn is_source(&self, node: u8, address: IpAddr) -> bool
        ensures { result ≡ is_source self.now.sources.items node address }
    {
        self.sources.iter().any(|source| source.node == node && is_same(source.address, address))
    }

    /// Whether a node dials this one from this address.
    pub(crate) fn dials_from(&self, node: u8, address: IpAddr) -> bool
        ensures { result ≡ dials_from self.now node address }
    {
        self.own < node && (self.is_at(node, address) || self.is_source(node, address))
    }

    /// Whether some node dials this one from this address.
    pub(crate) fn is_home(&self, address: IpAddr) -> bool
        ensures { result ≡ is_home self.now address }
    {
        NUMBERS.iter().any(|node| self.dials_from(*node, address))
    }
}
