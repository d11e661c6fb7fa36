//! The store files of a match that is served.

ghost use Rattle.std.specs.Prelude.{◌≡◌, ◌≤◌, IfOk, length};

use crate::kept_match::unread;
use crate::locking::{Lock, is_in_use, locked, surely_locked};
use crate::notes::Notes;
use crate::open_files::tell_open_file;
use dealer_node::NodeFault;
use match_links::limits::NODES;
use match_runs::Unserved;
use node_runs::look_at_store;
use operator_notes::{Cause, store_path};
use promise_store::FileDisk;
use serving::ServeFault;
use std::alloc::AllocError;
use std::fs::File;
use std::io;

/// Opens and locks the stores of so many nodes, and looks whether they are stores; it writes nothing there. Each stays
/// locked while its disk is there: a disk keeps the file that was opened here.
pub(crate) fn open_stores(
    rt: &HostRuntime,
    folder: &str,
    nodes: usize,
    notes: &mut Notes<'_>,
) -> Result<Vec<FileDisk>, Unserved>
    requires { nodes ≤ NODES }
    ensures { IfOk result (λ disks. length disks.items ≡ nodes) }
{
    let mut disks = Vec::with_capacity(rt.alloc(), nodes)?;
    for node in 0..nodes {
        let disk = open_store(rt, folder, (node as u8, nodes as u8), notes)?;
        if disks.push(disk).is_err() {
            return Err(Unserved::from(AllocError));
        }
    }
    Ok(disks)
}

/// Opens the store of a node that runs in a process of its own, one of so many, takes its lock so, and looks whether it is a
/// store. It writes nothing there. A store of which the system gives no lock is refused (108), as one in use is: nothing would
/// keep a second process from it. A note says which it was.
pub(crate) fn open_own_store(
    rt: &HostRuntime,
    folder: &str,
    (node, nodes): (u8, u8),
    lock: Lock,
    notes: &mut Notes<'_>,
) -> Result<FileDisk, Unserved> {
    let path = store_path(rt.alloc(), folder, node)?;
    let opened = store_at(rt, path.as_str());
    match surely_locked(rt, opened, path.as_str(), lock, notes) {
        Ok(Some(file)) => look_at(rt, file, path.as_str(), (node, nodes), notes),
        Ok(None) => Err(Unserved::StoreInUse),
        Err(error) => Err(no_store(path.as_str(), &error, notes)),
    }
}

/// Refuses the store of such a node (108) where another process has it now; a note names it.
pub(crate) fn refuse_store_in_use(
    rt: &HostRuntime,
    folder: &str,
    node: u8,
    notes: &mut Notes<'_>,
) -> Result<(), Unserved> {
    let path = store_path(rt.alloc(), folder, node)?;
    match store_at(rt, path.as_str()) {
        Ok(file) if is_in_use(rt, &file, path.as_str()) => {
            notes.tell_file(path.as_str(), Cause::InUse);
            Err(Unserved::StoreInUse)
        }
        _ => Ok(()),
    }
}

/// Opens and locks the store of a node, one of so many, and looks whether it is one; the same as of all.
fn open_store(
    rt: &HostRuntime,
    folder: &str,
    (node, nodes): (u8, u8),
    notes: &mut Notes<'_>,
) -> Result<FileDisk, Unserved> {
    let path = store_path(rt.alloc(), folder, node)?;
    let opened = store_at(rt, path.as_str());
    match locked(rt, opened, path.as_str(), Lock::Held, notes) {
        Ok(file) => look_at(rt, file, path.as_str(), (node, nodes), notes),
        Err(error) => Err(no_store(path.as_str(), &error, notes)),
    }
}

/// The store file that is at this path, opened.
fn store_at(rt: &HostRuntime, path: &str) -> io::Result<File> {
    File::options().read(true).write(true).open(rt, path)
}

/// Why it isn't served where a store file can't be had: it is in use (108), or can't be read. A note names it.
fn no_store(path: &str, error: &io::Error, notes: &mut Notes<'_>) -> Unserved {
    if error.kind() == io::ErrorKind::WouldBlock {
        notes.tell_file(path, Cause::InUse);
        return Unserved::StoreInUse;
    }
    unread(path, error, notes)
}

/// The disk of a file that has a store of this node of so many. A note names one that hasn't, and one that others can read.
fn look_at(
    rt: &HostRuntime,
    file: File,
    path: &str,
    (node, nodes): (u8, u8),
    notes: &mut Notes<'_>,
) -> Result<FileDisk, Unserved> {
    tell_open_file(rt, path, notes);
    let (disk, answer) = look_at_store(rt.alloc(), FileDisk::new(file), node, nodes);
    match answer {
        Ok(()) => Ok(disk),
        Err(fault) => {
            if let NodeFault::Store(_) = fault {
                notes.tell_file(path, cause(&disk));
            }
            Err(Unserved::Fault(ServeFault::Node(fault)))
        }
    }
}

/// Why the system refused a call of a disk, if it refused one.
pub(crate) fn cause(disk: &FileDisk) -> Cause {
    match disk.last_error() {
        Some(kind) => Cause::of(kind),
        None => Cause::Unknown,
    }
}
