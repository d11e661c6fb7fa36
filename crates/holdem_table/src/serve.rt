//! `serve`: deals a match over TCP, from the files that a match file names.

ghost use Rattle.std.specs.Prelude.{◌≡◌, ◌≤◌, length};
ghost use Rattle.match_runs.specs.Conclusion.{IsOfServe};

use crate::arguments::ServeArguments;
use crate::init::tell_unused;
use crate::kept_match::{compare_kept, unread};
use crate::log_files::{add_logs, open_logs};
use crate::match_files::named;
use crate::notes::Notes;
use crate::open_files::tell_open_file;
use crate::seeds::tell_seeds;
use crate::store_files::{cause, open_stores};
use dealer_kind::Config;
use dealer_node::NodeFault;
use dealer_world::Cluster;
use match_file::{MatchFile, Service};
use match_links::limits::NODES;
use match_links::{Failed, PortFault, TcpLinks};
use match_runs::{Conclusion, Unserved, serve_run, tell_ports};
use operator_notes::{Cause, SeatPorts, log_path, store_path};
use promise_store::FileDisk;
use serving::{Outages, ServeFault, Server};
use std::alloc::AllocError;
use std::fs;
use std::fs::File;
use streamed::Ending;

/// A server over files and sockets.
type TcpServer<'a> = Server<FileDisk, TcpLinks<'a>>;

/// Deals the match of a match file to its end: listens for its seats, and keeps its stores and logs.
///
/// The match file's entries are looked at, its ports bound, the match compared with the one that its stores are kept for,
/// its stores locked and read, and its logs opened and locked, in this order, before anything is changed; and of what is
/// changed the logs come first, so that where they are refused the stores are as they were. `Ended` with
/// `Match`, `Unreadable`, `OtherMatch` or `StoreInUse` (status 2) comes where the match file is refused, where it, its
/// game or a store file can't be read, where the stores are of another match, or where one is in use; else it is `Done`,
/// once the match is over. What else comes, want of memory too, is the fault of the server (status 1). Notes go to standard
/// error, one a line; the one before a fault names its port or file, where it has one. Others name seeds that can be guessed, and
/// the match file and stores where others can read them.
pub(crate) fn serve(rt: &HostRuntime, arguments: ServeArguments<'_>) -> Conclusion
    ensures { IsOfServe result }
{
    let mut notes = Notes::new(rt, arguments.has_times);
    match serve_match(rt, arguments.path, &mut notes) {
        Ok(()) => Conclusion::Ended(Ending::Done),
        Err(why) => why.conclusion(),
    }
}

/// The steps of it, up to the first that fails: what is looked at comes before what is changed.
fn serve_match(rt: &HostRuntime, path: &str, notes: &mut Notes<'_>) -> Result<(), Unserved> {
    let text = read(rt, path, notes)?;
    tell_open_file(rt, path, notes);
    let file = named(path, MatchFile::read(rt.alloc(), &text), notes)?;
    tell_unused(rt, &file, notes)?;
    serve_file(rt, path, &file, notes)
}

/// The steps of it once there is a match file to read them from. The logs of earlier starts stay open, and so locked, as
/// long as the match is served.
fn serve_file(
    rt: &HostRuntime,
    path: &str,
    file: &MatchFile,
    notes: &mut Notes<'_>,
) -> Result<(), Unserved> {
    let config = configure(rt, path, file, notes)?;
    tell_seeds(rt, &config, notes)?;
    let service = named(path, file.service(rt.alloc(), config.nodes()), notes)?;
    let (stores, logs) = (service.stores, service.logs);
    let ports = seat_ports(&config, service.port);
    let mut old_logs = Vec::new(rt.alloc());
    let mut server = begin(rt, config, service, ports, &mut old_logs, notes)?;
    serve_seats(rt, &mut server, (stores, logs), ports, notes)
}

/// The match that the match file at this path configures, whose game file is read.
pub(crate) fn configure(
    rt: &HostRuntime,
    path: &str,
    file: &MatchFile,
    notes: &mut Notes<'_>,
) -> Result<Config, Unserved> {
    let game = read(rt, named(path, file.game(), notes)?, notes)?;
    Ok(named(path, file.config(rt.alloc(), Some(&game)), notes)?)
}

/// Serves the seats until the match is over. A note tells the port or the file where a turn failed.
fn serve_seats(
    rt: &HostRuntime,
    server: &mut TcpServer<'_>,
    folders: (&str, &str),
    ports: SeatPorts,
    notes: &mut Notes<'_>,
) -> Result<(), Unserved> {
    match serve_run(rt.alloc(), server, ports, notes) {
        Ok(()) => Ok(()),
        Err(fault) => {
            tell_failed(rt, server, folders, fault, notes)?;
            Err(Unserved::Fault(fault))
        }
    }
}

/// Where the seats of a match are awaited whose first port this is.
fn seat_ports(config: &Config, first: u16) -> SeatPorts {
    SeatPorts {
        first,
        players: config.game().players() as u8,
    }
}

/// What a file has. A note names one that can't be read.
pub(crate) fn read(
    rt: &HostRuntime,
    path: &str,
    notes: &mut Notes<'_>,
) -> Result<Vec<u8>, Unserved> {
    match fs::read(rt, path) {
        Ok(text) => Ok(text),
        Err(error) => Err(unread(path, &error, notes)),
    }
}

/// Tells the port or the file where a turn failed; the folders are those of stores and of logs.
fn tell_failed(
    rt: &HostRuntime,
    server: &TcpServer<'_>,
    (stores, logs): (&str, &str),
    fault: ServeFault,
    notes: &mut Notes<'_>,
) -> Result<(), Unserved> {
    match fault {
        ServeFault::Node(NodeFault::Store(_)) => tell_store(rt, server, stores, notes),
        ServeFault::Node(_) => Ok(()),
        _ => tell_link(rt, logs, fault, server.links().failed(), notes),
    }
}

/// Tells the store of the node that was called last, and why the system refused a call of its disk.
fn tell_store(
    rt: &HostRuntime,
    server: &TcpServer<'_>,
    stores: &str,
    notes: &mut Notes<'_>,
) -> Result<(), Unserved> {
    let node = server.last_node();
    let path = store_path(rt.alloc(), stores, node)?;
    let cause = cause_at(server.cluster(), node as usize);
    notes.tell_file(path.as_str(), cause);
    Ok(())
}

/// Why the system refused a call of a node's disk, if it refused one.
fn cause_at(cluster: &Cluster<FileDisk>, node: usize) -> Cause {
    if node < cluster.node_count() {
        if let Some(disk) = cluster.node(node).disk() {
            return cause(disk);
        }
    }
    Cause::Unknown
}

/// Tells the port or the log where links failed.
fn tell_link(
    rt: &HostRuntime,
    logs: &str,
    fault: ServeFault,
    failed: Option<Failed>,
    notes: &mut Notes<'_>,
) -> Result<(), Unserved> {
    match (fault, failed) {
        (ServeFault::LinkFailed, Some(Failed::Port { port, kind })) => {
            notes.tell_port(port, Cause::of(kind));
            Ok(())
        }
        (ServeFault::LogFailed, Some(Failed::Log { node, kind })) => {
            tell_log(rt, logs, node, Cause::of(kind), notes)
        }
        _ => Ok(()),
    }
}

/// Tells the log of a node, and why it failed.
fn tell_log(
    rt: &HostRuntime,
    logs: &str,
    node: u8,
    cause: Cause,
    notes: &mut Notes<'_>,
) -> Result<(), Unserved> {
    let path = log_path(rt.alloc(), logs, node)?;
    notes.tell_file(path.as_str(), cause);
    Ok(())
}

/// Binds the ports, opens stores and logs, and makes the server.
fn begin<'a>(
    rt: &'a HostRuntime,
    config: Config,
    service: Service<'_>,
    ports: SeatPorts,
    old_logs: &mut Vec<File>,
    notes: &mut Notes<'_>,
) -> Result<TcpServer<'a>, Unserved>
    requires { service.port ≤ 65000 }
{
    let Service {
        stores,
        logs: folder,
        port,
        outages,
        absent,
    } = service;
    let nodes = config.nodes();
    config.limits();
    let mut links = bind(rt, port, nodes, config.game().players(), notes)?;
    tell_ports(rt.alloc(), &config, ports, notes);
    compare_kept(rt, stores, &config, notes)?;
    let disks = open_stores(rt, stores, nodes, notes)?;
    let logs = open_logs(rt, folder, nodes, notes)?;
    add_logs(rt, folder, logs, &mut links, old_logs, notes)?;
    // Behind all that may be refused of the logs, since opening a store of version 1 writes there.
    let cluster = open_cluster(rt, config, disks, stores, notes)?;
    let outages = Outages::new(outages);
    match Server::new(rt.alloc(), cluster, links, outages, absent) {
        Ok(server) => Ok(server),
        Err(fault) => Err(unbegun(folder, fault, notes)),
    }
}

/// Starts the nodes over their stores.
fn open_cluster(
    rt: &HostRuntime,
    config: Config,
    disks: Vec<FileDisk>,
    folder: &str,
    notes: &mut Notes<'_>,
) -> Result<Cluster<FileDisk>, Unserved>
    requires { length disks.items ≡ length config.sources }
{
    config.limits();
    match Cluster::open(rt.alloc(), config, disks) {
        Ok(cluster) => Ok(cluster),
        Err(fault) => Err(unbegun(folder, fault.into(), notes)),
    }
}

/// Why it isn't served where stores or logs that could be opened fail after all; a note names their folder.
fn unbegun(folder: &str, fault: ServeFault, notes: &mut Notes<'_>) -> Unserved {
    if let ServeFault::LogFailed | ServeFault::Node(NodeFault::Store(_)) = fault {
        notes.tell_file(folder, Cause::Unknown);
    }
    Unserved::Fault(fault)
}

/// Binds the ports. A note names one that can't be had.
fn bind<'a>(
    rt: &'a HostRuntime,
    port: u16,
    nodes: usize,
    players: usize,
    notes: &mut Notes<'_>,
) -> Result<TcpLinks<'a>, Unserved>
    requires port { port ≤ 65000 }
    requires nodes { nodes ≤ NODES }
    requires players { players ≤ 10 }
{
    match TcpLinks::bind(rt, port, nodes, players) {
        Ok(links) => Ok(links),
        Err(PortFault::Port { port, kind }) => {
            notes.tell_port(port, Cause::of(kind));
            Err(Unserved::Fault(ServeFault::LinkFailed))
        }
        Err(PortFault::OutOfMemory) => Err(Unserved::from(AllocError)),
    }
}
