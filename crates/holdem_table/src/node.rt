//! `node`: runs one node of a match in a process of its own, from the files that a match file names.

ghost use Rattle.std.specs.Prelude.{◌≡◌, ◌<◌, length, IfOk};
ghost use Rattle.match_runs.specs.Conclusion.{conclusion_of, conclusion_text};
ghost use Rattle.node_runs.specs.NodeEnds.{end_text};

mod access;
mod ends;
mod opening;

use crate::arguments::NodeArguments;
use crate::init::tell_unused;
use crate::life_files::LifeFiles;
use crate::match_files::named;
use crate::notes::Notes;
use crate::open_files::tell_open_file;
use crate::promise_files::PromiseFiles;
use crate::seeds::tell_own_seed;
use crate::serve::{configure, read};
use dealer_kind::Config;
use match_file::{Key as Entry, MatchFault, MatchFile, NodeEntries};
use match_runs::Unserved;
use node_runs::{ComparedWire, KeptLog, NodeEnd, node_run};
use node_service::NodeServer;
use node_wires::TcpWire;
use operator_notes::NodeNote;
use promise_store::FileDisk;
use serving::ServeFault;

/// The process of a node over files and sockets.
type TcpNode<'k, 'a> = NodeServer<FileDisk, ComparedWire<'k, TcpWire<'a>>>;

/// Where the files of a node lie.
#[derive(Clone, Copy)]
struct Place<'a> {
    rt: &'a HostRuntime,
    stores: &'a str,
    logs: &'a str,
    node: u8,
}

/// Runs a node of the match of a match file until the match is over and all other nodes know it: speaks with the other nodes,
/// listens for its seats, and keeps its store and its log.
///
/// The match file's entries are looked at, the key read, the match compared with the one that the store was made for, the
/// store locked and read, what is kept of peers and logs read, the ports bound, and the log opened and locked, in this order,
/// before anything is changed. A log that would contradict a kept one is never written: the node ends (129). Notes go to
/// standard error, one a line; the one before a fault names its address or file, where it has one.
///
/// Where it is only to be looked, all of this is looked at in the same way and order but for the ports, which aren't bound,
/// and each record of the store is read. Then it ends as a start would: by the same fault with the same note before it, or
/// with a note that the node can be started. No file is made or written, and no lock kept. It can't see what only writing
/// shows: a full disk, or a folder in which this user may make no file. Where a process of the node runs, or begins meanwhile,
/// it is `StoreInUse` (108).
pub(crate) fn node(rt: &HostRuntime, arguments: NodeArguments<'_>) -> Result<(), NodeEnd> {
    let mut notes = Notes::new(rt, arguments.has_times);
    let text = read(rt, arguments.path, &mut notes).map_err(end_by)?;
    tell_open_file(rt, arguments.path, &mut notes);
    let read = MatchFile::read(rt.alloc(), &text);
    let file = named(arguments.path, read, &mut notes)?;
    run_file(rt, &file, arguments, &mut notes)
}

/// The steps of it once there is a match file to read them from.
fn run_file(
    rt: &HostRuntime,
    file: &MatchFile,
    arguments: NodeArguments<'_>,
    notes: &mut Notes<'_>,
) -> Result<(), NodeEnd> {
    let NodeArguments { path, node, .. } = arguments;
    tell_unused(rt, file, notes)?;
    let config = configure(rt, path, file, notes).map_err(end_by)?;
    config.limits();
    let entries = entries_of(rt, file, &config, arguments, notes).map_err(end_by)?;
    if arguments.is_look {
        look_at_entries(rt, &config, node, entries, notes).map_err(end_by)
    } else {
        run_entries(rt, config, node, entries, notes)
    }
}

/// What the match file says of the node that is asked for, if the match has one of this number. Notes tell the keys by which it
/// doesn't go.
fn entries_of<'a>(
    rt: &HostRuntime,
    file: &'a MatchFile,
    config: &Config,
    arguments: NodeArguments<'_>,
    notes: &mut Notes<'_>,
) -> Result<NodeEntries<'a>, Unserved>
    ensures { IfOk result (λ _. arguments.entry.node < length config.now.sources) }
{
    let NodeArguments { path, node, .. } = arguments;
    if node as usize >= config.nodes() {
        notes.tell_no_such_node(node, config.nodes() as u8);
        return Err(Unserved::Match(MatchFault::BadEntry(Entry::Node)));
    }
    tell_own_seed(config, node, notes);
    config.limits();
    let players = config.game().players();
    let entries = named(path, file.node_entries(rt.alloc(), players), notes)?;
    for key in file.unused_by_node(rt.alloc())? {
        notes.tell_node(&NodeNote::PassedOver(key.text()));
    }
    Ok(entries)
}

/// Looks whether a node can be started, once all entries are right.
fn look_at_entries(
    rt: &HostRuntime,
    config: &Config,
    node: u8,
    entries: NodeEntries<'_>,
    notes: &mut Notes<'_>,
) -> Result<(), Unserved>
    requires { node < length config.now.sources }
{
    let place = Place {
        rt,
        stores: entries.stores,
        logs: entries.logs,
        node,
    };
    let _ = place.access(entries, notes)?;
    place.look(config, notes)?;
    notes.tell_node(&NodeNote::CanStart {
        name: *config.name(),
        node,
    });
    Ok(())
}

/// Runs a node once all entries are right.
fn run_entries(
    rt: &HostRuntime,
    config: Config,
    node: u8,
    entries: NodeEntries<'_>,
    notes: &mut Notes<'_>,
) -> Result<(), NodeEnd>
    requires { node < length config.sources }
{
    let place = Place {
        rt,
        stores: entries.stores,
        logs: entries.logs,
        node,
    };
    let access = place.access(entries, notes).map_err(end_by)?;
    let port = access.seats.port();
    let mut lives = LifeFiles::new(rt, place.stores, node);
    let mut promises = PromiseFiles::new(rt, place.stores, node);
    let mut old_logs = Vec::new(rt.alloc());
    let (opened, kept) = place
        .open(&config, access, &lives, &mut old_logs, notes)
        .map_err(end_by)?;
    let mut server = place
        .begin(config, opened, KeptLog::new(&kept.text), notes)
        .map_err(end_by)?;
    let ended = node_run(
        rt.alloc(),
        &mut server,
        &mut lives,
        &mut promises,
        port,
        notes,
    );
    let Err(end) = ended else {
        notes.tell_node(&NodeNote::Over);
        return Ok(());
    };
    match (end, server.wire().differing_hand()) {
        (NodeEnd::LogFailed, Some(hand)) => {
            place.tell_difference(hand, &kept, notes)?;
            Err(NodeEnd::LogDiffers)
        }
        _ => {
            place.tell_end(&server, &lives, end, notes)?;
            Err(end)
        }
    }
}

/// How a node's process ends where it isn't begun.
fn end_by(why: Unserved) -> NodeEnd
    ensures { end_text result ≡ conclusion_text (conclusion_of why) }
{
    match why {
        Unserved::Match(fault) => NodeEnd::Match(fault),
        Unserved::Unreadable => NodeEnd::Unreadable,
        Unserved::StoreInUse => NodeEnd::StoreInUse,
        Unserved::OtherMatch(difference) => NodeEnd::OtherMatch(difference),
        Unserved::Fault(ServeFault::LinkFailed) => NodeEnd::LinkFailed,
        Unserved::Fault(ServeFault::LogFailed) => NodeEnd::LogFailed,
        Unserved::Fault(ServeFault::Node(fault)) => NodeEnd::Node(fault),
    }
}
