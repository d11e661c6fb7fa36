//! How a node's process comes by its store, its ports, its log and its server.

ghost use Rattle.std.specs.Prelude.{◌<◌, length};

use super::access::{Access, Times};
use super::{Place, TcpNode};
use crate::identity::{Identity, identify};
use crate::life_files::LifeFiles;
use crate::locking::Lock;
use crate::log_files::{begin_log, look_at_log, open_log};
use crate::notes::Notes;
use crate::own_logs::OwnLogs;
use crate::store_files::{open_own_store, refuse_store_in_use};
use clockwork::limits::SHORTEST;
use dealer_kind::Config;
use dealer_node::NodeFault;
use match_runs::Unserved;
use node_links::{Own, Settings};
use node_peers::{NodeAddress, Peers};
use node_runs::{ComparedWire, KeptLog, KeptPeer};
use node_seats::Seats;
use node_service::{LocalNode, NodeServer, Terms};
use node_status::Askers;
use node_wires::limits::NODES;
use node_wires::{BindFault, TcpWire};
use operator_notes::{Cause, NodeNote};
use peer_codes::{Key, Life};
use promise_store::FileDisk;
use serving::ServeFault;
use stations::Station;
use std::alloc::AllocError;
use std::fs::File;
use std::net::{IpAddr, SocketAddr};

/// How many milliseconds seats are waited for that haven't come yet, where the match file doesn't say it.
const LONGEST_START: u32 = 600_000;

/// What a node has before its store is opened.
#[derive(Drop)]
pub(super) struct Opened<'a> {
    /// How many nodes the match has.
    nodes: u8,
    identity: Identity,
    disk: FileDisk,
    /// What it keeps of its peers' stores, by number.
    known: Vec<Option<KeptPeer>>,
    /// Its wires, with its log.
    wire: TcpWire<'a>,
    key: Option<Key>,
    seats: Seats,
    /// The addresses of the nodes that dial this one.
    addresses: Vec<NodeAddress>,
    times: Times,
    settings: Settings,
}

/// What lies beside the store of a node, and the store.
#[derive(Drop)]
struct Found {
    identity: Identity,
    disk: FileDisk,
    /// What it keeps of its peers' stores, by number.
    known: Vec<Option<KeptPeer>>,
    /// The first number of its store's kept logs, where that is known.
    first_log: Option<u32>,
}

/// The kept log that the node's log must not contradict.
#[derive(Drop)]
pub(super) struct Kept {
    /// Its number; 0 where there is none.
    pub(super) number: u32,
    /// What it has; nothing where there is none.
    pub(super) text: Vec<u8>,
}

impl<'a> Place<'a> {
    /// Reads what lies beside the store, and looks at the store, whose lock is taken so.
    fn find(
        &self,
        config: &Config,
        lives: &LifeFiles<'_>,
        lock: Lock,
        notes: &mut Notes<'_>,
    ) -> Result<Found, Unserved>
        requires { self.now.node < length config.now.sources }
    {
        let nodes = config.nodes() as u8;
        let identity = identify(self.rt, self.stores, self.node, config, notes)?;
        let disk = open_own_store(self.rt, self.stores, (self.node, nodes), lock, notes)?;
        let known = lives.read(nodes, notes)?;
        let first_log = self.own_logs(identity.life).first(notes)?;
        Ok(Found {
            identity,
            disk,
            known,
            first_log,
        })
    }

    /// Looks at all of this, and at the logs, as a start does, and changes nothing. A store that has come into use by then is
    /// refused (108), whatever was found.
    pub(super) fn look(&self, config: &Config, notes: &mut Notes<'_>) -> Result<(), Unserved>
        requires { self.now.node < length config.now.sources }
    {
        let looked = self.look_at_files(config, notes);
        if let Err(Unserved::StoreInUse) = looked {
            return looked;
        }
        refuse_store_in_use(self.rt, self.stores, self.node, notes)?;
        looked
    }

    /// The same, where the store doesn't come into use.
    fn look_at_files(&self, config: &Config, notes: &mut Notes<'_>) -> Result<(), Unserved>
        requires { self.now.node < length config.now.sources }
    {
        let lives = LifeFiles::new(self.rt, self.stores, self.node);
        let found = self.find(config, &lives, Lock::Tried, notes)?;
        look_at_log(self.rt, self.logs, self.node, notes)?;
        self.own_logs(found.identity.life)
            .look(found.first_log, notes)
    }

    /// Reads what lies beside the store, locks the store, and opens the ports and the log. Logs of earlier starts stay open, and
    /// so locked. What is kept of the log is read last, or first written.
    pub(super) fn open(
        &self,
        config: &Config,
        access: Access,
        lives: &LifeFiles<'_>,
        old_logs: &mut Vec<File>,
        notes: &mut Notes<'_>,
    ) -> Result<(Opened<'a>, Kept), Unserved>
        requires { self.now.node < length config.now.sources }
    {
        let nodes = config.nodes() as u8;
        config.limits();
        let players = config.game().players() as u8;
        let Found {
            identity,
            disk,
            known,
            first_log,
        } = self.find(config, lives, Lock::Held, notes)?;
        let Access {
            peers,
            from,
            seats,
            status,
            key,
            tokens,
            times,
        } = access;
        let settings = times.settings(&tokens);
        let addresses = self.dialling(&peers, &from)?;
        let mut wire = self.bind(peers, seats, players, status, notes)?;
        add_sources(&mut wire, &from)?;
        wire.add_log(self.begin_log(old_logs, notes)?);
        let kept = kept_log(&self.own_logs(identity.life), first_log, notes)?;
        let seats = Seats::new(self.rt.alloc(), players, tokens)?;
        let opened = Opened {
            nodes,
            identity,
            disk,
            known,
            wire,
            key,
            seats,
            addresses,
            times,
            settings,
        };
        Ok((opened, kept))
    }

    /// Opens the store, behind all that may be refused of the log, since opening one of version 1 writes there; and makes the
    /// server.
    pub(super) fn begin<'k>(
        &self,
        config: Config,
        opened: Opened<'a>,
        kept: KeptLog<'k>,
        notes: &mut Notes<'_>,
    ) -> Result<TcpNode<'k, 'a>, Unserved>
        requires { self.now.node < length config.sources }
    {
        let Opened {
            nodes,
            identity,
            disk,
            known,
            wire,
            key,
            seats,
            addresses,
            times,
            settings,
        } = opened;
        let station = self.open_station(config, disk, notes)?;
        let alloc = self.rt.alloc();
        let lives = self.lives(&known)?;
        let mut peers = Peers::new(alloc, self.own(nodes, identity, key), &lives, SHORTEST)?;
        set_heard(&mut peers, &known);
        peers.set_settings(settings);
        peers.set_addresses(addresses);
        let askers = Askers::new(alloc)?;
        let member = LocalNode::new(alloc, station);
        let wire = ComparedWire::new(wire, kept);
        let terms = Terms {
            patience: times.patience.map(in_microseconds),
            start: in_microseconds(times.start.unwrap_or(LONGEST_START)),
            gives_up: !times.waits,
            settings: Some(settings),
        };
        Ok(NodeServer::new(alloc, member, wire, peers, seats, askers, terms))
    }

    /// The lives of these, by number.
    fn lives(&self, known: &[Option<KeptPeer>]) -> Result<Vec<Option<Life>>, AllocError> {
        let mut lives = Vec::with_capacity(self.rt.alloc(), known.len())?;
        for kept in known {
            lives.reserve(1)?;
            lives.push_reserved(kept.map(|kept| kept.life));
        }
        Ok(lives)
    }

    /// The addresses of the nodes that dial this one, those of greater numbers.
    fn dialling(
        &self,
        peers: &[SocketAddr],
        from: &[Vec<IpAddr>],
    ) -> Result<Vec<NodeAddress>, AllocError> {
        let mut addresses = Vec::new(self.rt.alloc());
        for node in self.node.saturating_add(1)..NODES as u8 {
            if let Some(peer) = peers.get(node as usize) {
                addresses.push(NodeAddress {
                    node,
                    at: peer.ip(),
                })?;
            }
            if let Some(others) = from.get(node as usize) {
                put_addresses(&mut addresses, node, others)?;
            }
        }
        Ok(addresses)
    }

    /// The logs of the node, whose store has this life.
    fn own_logs(&self, life: Life) -> OwnLogs<'a> {
        OwnLogs {
            rt: self.rt,
            folder: self.logs,
            node: self.node,
            life,
        }
    }

    /// What the node says of itself to others, in a match of so many, and what it proves it by.
    fn own(&self, nodes: u8, identity: Identity, key: Option<Key>) -> Own {
        Own {
            number: self.node,
            nodes,
            digest: identity.digest,
            life: identity.life,
            key,
        }
    }

    /// Binds the ports. A note names one that can't be had, and else where the status is.
    fn bind(
        &self,
        peers: Vec<SocketAddr>,
        seats: SocketAddr,
        players: u8,
        status: Option<SocketAddr>,
        notes: &mut Notes<'_>,
    ) -> Result<TcpWire<'a>, Unserved> {
        match TcpWire::bind(self.rt, peers, self.node, seats, players, status) {
            Ok(wire) => {
                if let Some(address) = status {
                    notes.tell_node(&NodeNote::Status(address));
                }
                Ok(wire)
            }
            Err(BindFault::Port { address, kind }) => {
                let text = format!(in self.rt.alloc(); "{address}")?;
                notes.tell_file(text.as_str(), Cause::of(kind));
                Err(Unserved::Fault(ServeFault::LinkFailed))
            }
            Err(BindFault::Failed { kind: _ }) => Err(Unserved::Fault(ServeFault::LinkFailed)),
            Err(BindFault::OutOfMemory) => Err(Unserved::from(AllocError)),
        }
    }

    /// Opens the log. What an earlier start left there is kept, as of `serve`.
    fn begin_log(&self, old_logs: &mut Vec<File>, notes: &mut Notes<'_>) -> Result<File, Unserved> {
        let log = open_log(self.rt, self.logs, self.node, notes)?;
        begin_log(self.rt, self.logs, self.node, log, old_logs, notes)
    }

    /// The station of the node over its store.
    fn open_station(
        &self,
        config: Config,
        disk: FileDisk,
        notes: &mut Notes<'_>,
    ) -> Result<Station<FileDisk>, Unserved>
        requires { self.now.node < length config.sources }
    {
        match Station::open(self.rt.alloc(), config, self.node, disk) {
            Ok(station) => Ok(station),
            Err(fault) => {
                if let NodeFault::Store(_) = fault {
                    notes.tell_file(self.stores, Cause::Unknown);
                }
                Err(Unserved::Fault(ServeFault::Node(fault)))
            }
        }
    }
}

/// Tells what peers' stores have promised, as far as it was kept.
fn set_heard(peers: &mut Peers, known: &[Option<KeptPeer>]) {
    for peer in 0..NODES {
        if let Some(Some(kept)) = known.get(peer)
            && let Some(ballot) = kept.promised
        {
            peers.set_heard(peer as u8, ballot);
        }
    }
}

/// Has places kept for each node at these addresses too, from which it dials.
fn add_sources(wire: &mut TcpWire<'_>, from: &[Vec<IpAddr>]) -> Result<(), AllocError> {
    for node in 0..NODES as u8 {
        if let Some(addresses) = from.get(node as usize) {
            add_sources_of(wire, node, addresses)?;
        }
    }
    Ok(())
}

/// The same of one node.
fn add_sources_of(
    wire: &mut TcpWire<'_>,
    node: u8,
    addresses: &[IpAddr],
) -> Result<(), AllocError> {
    for address in addresses {
        wire.add_source(node, *address)?;
    }
    Ok(())
}

/// Appends the addresses of a node from which it dials.
fn put_addresses(
    addresses: &mut Vec<NodeAddress>,
    node: u8,
    others: &[IpAddr],
) -> Result<(), AllocError> {
    for at in others {
        addresses.push(NodeAddress { node, at: *at })?;
    }
    Ok(())
}

/// The newest kept log of a node's store, by the first number of such.
fn kept_log(
    own_logs: &OwnLogs<'_>,
    first: Option<u32>,
    notes: &mut Notes<'_>,
) -> Result<Kept, Unserved> {
    match own_logs.newest(first, notes)? {
        Some(number) => Ok(Kept {
            number,
            text: own_logs.read(number, notes)?,
        }),
        None => Ok(Kept {
            number: 0,
            text: Vec::new(own_logs.rt.alloc()),
        }),
    }
}

/// So many milliseconds.
fn in_microseconds(milliseconds: u32) -> u64 {
    milliseconds as u64 * 1_000
}
