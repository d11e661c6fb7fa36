//! The logs of a match that is served, and what becomes of those that an earlier start left.

ghost use Rattle.std.specs.Prelude.{◌≤◌};

use crate::locking::{Lock, locked};
use crate::made_files::Readers;
use crate::notes::Notes;
use match_links::TcpLinks;
use match_links::limits::NODES;
use match_runs::Unserved;
use operator_notes::{Cause, kept_log_path, kept_number, log_path, stands_in};
use serving::ServeFault;
use std::alloc::AllocError;
use std::fs::File;
use std::{fs, io};

/// Opens and locks the logs of so many nodes. None is made before all that are there were opened and locked.
pub(crate) fn open_logs(
    rt: &HostRuntime,
    folder: &str,
    nodes: usize,
    notes: &mut Notes<'_>,
) -> Result<Vec<File>, Unserved>
    requires { nodes ≤ NODES }
{
    let mut found = Vec::new(rt.alloc());
    for node in 0..nodes {
        found.reserve(1)?;
        let path = log_path(rt.alloc(), folder, node as u8)?;
        found.push_reserved(log_at(rt, path.as_str(), Lock::Held, notes)?);
    }
    let mut logs = Vec::new(rt.alloc());
    let mut node: u8 = 0;
    for log in found {
        logs.reserve(1)?;
        let log = match log {
            Some(log) => log,
            None => make_log(rt, folder, node, notes)?,
        };
        logs.push_reserved(log);
        node = node.saturating_add(1);
    }
    Ok(logs)
}

/// Opens and locks the log of one node, and makes it where it isn't there.
pub(crate) fn open_log(
    rt: &HostRuntime,
    folder: &str,
    node: u8,
    notes: &mut Notes<'_>,
) -> Result<File, Unserved> {
    let path = log_path(rt.alloc(), folder, node)?;
    match log_at(rt, path.as_str(), Lock::Held, notes)? {
        Some(log) => Ok(log),
        None => make_log(rt, folder, node, notes),
    }
}

/// The log at this path, and its lock taken so; none where none is there.
fn log_at(
    rt: &HostRuntime,
    path: &str,
    lock: Lock,
    notes: &mut Notes<'_>,
) -> Result<Option<File>, Unserved> {
    let opened = File::options().read(true).append(true).open(rt, path);
    match locked(rt, opened, path, lock, notes) {
        Ok(log) => Ok(Some(log)),
        Err(error) if error.kind() == io::ErrorKind::NotFound => Ok(None),
        Err(error) => Err(no_log(path, &error, notes)),
    }
}

/// The log of a node that wasn't there, made and locked.
fn make_log(
    rt: &HostRuntime,
    folder: &str,
    node: u8,
    notes: &mut Notes<'_>,
) -> Result<File, Unserved> {
    let path = log_path(rt.alloc(), folder, node)?;
    let mut options = File::options();
    options.read(true).append(true).create(true);
    let made = Readers::Group.open(rt, &mut options, path.as_str());
    if is_not_found(&made) {
        refuse_no_folder(rt, folder, notes)?;
    }
    had(rt, made, path.as_str(), notes)
}

/// Whether a log couldn't be made since something isn't there.
fn is_not_found(made: &io::Result<File>) -> bool {
    match made {
        Err(error) => error.kind() == io::ErrorKind::NotFound,
        Ok(_) => false,
    }
}

/// Refuses a folder of logs that isn't there; a note names it.
fn refuse_no_folder(rt: &HostRuntime, folder: &str, notes: &mut Notes<'_>) -> Result<(), Unserved> {
    match fs::metadata(rt, folder) {
        Err(error) if error.kind() == io::ErrorKind::NotFound => {
            notes.tell_file(folder, Cause::NoFolder);
            Err(Unserved::Fault(ServeFault::LogFailed))
        }
        _ => Ok(()),
    }
}

/// A log that was opened, locked. A note names one that can't be had.
fn had(
    rt: &HostRuntime,
    opened: io::Result<File>,
    path: &str,
    notes: &mut Notes<'_>,
) -> Result<File, Unserved> {
    match locked(rt, opened, path, Lock::Held, notes) {
        Ok(log) => Ok(log),
        Err(error) => Err(no_log(path, &error, notes)),
    }
}

/// Why it isn't served where a log can't be had; a note names it, unless it is for want of memory.
pub(crate) fn no_log(path: &str, error: &io::Error, notes: &mut Notes<'_>) -> Unserved {
    if error.kind() == io::ErrorKind::OutOfMemory {
        return Unserved::from(AllocError);
    }
    notes.tell_file(path, Cause::of(error.kind()));
    Unserved::Fault(ServeFault::LogFailed)
}

/// Gives the links empty logs. A log that has anything is emptied where all of it stands at the front of the newest kept
/// one too; else it is kept under the next number, and stays open and locked among the old ones.
pub(crate) fn add_logs(
    rt: &HostRuntime,
    folder: &str,
    logs: Vec<File>,
    links: &mut TcpLinks<'_>,
    old_logs: &mut Vec<File>,
    notes: &mut Notes<'_>,
) -> Result<(), Unserved> {
    let mut node: u8 = 0;
    for log in logs {
        let log = begin_log(rt, folder, node, log, old_logs, notes)?;
        links.add_log(log)?;
        node = node.saturating_add(1);
    }
    Ok(())
}

/// An empty log of a node in the place of this one, which is emptied or kept.
pub(crate) fn begin_log(
    rt: &HostRuntime,
    folder: &str,
    node: u8,
    log: File,
    old_logs: &mut Vec<File>,
    notes: &mut Notes<'_>,
) -> Result<File, Unserved> {
    LogPlace { rt, folder, node }.begin(log, old_logs, notes)
}

/// Looks at the log of a node as a start does before it begins one, and changes nothing.
pub(crate) fn look_at_log(
    rt: &HostRuntime,
    folder: &str,
    node: u8,
    notes: &mut Notes<'_>,
) -> Result<(), Unserved> {
    let path = log_path(rt.alloc(), folder, node)?;
    match log_at(rt, path.as_str(), Lock::Tried, notes)? {
        Some(log) => {
            let _ = LogPlace { rt, folder, node }.fate(&log, path.as_str(), notes)?;
            Ok(())
        }
        None => refuse_no_folder(rt, folder, notes),
    }
}

/// The greatest number of the logs that are kept of a node; none where none is.
pub(crate) fn newest_kept(
    rt: &HostRuntime,
    folder: &str,
    node: u8,
    notes: &mut Notes<'_>,
) -> Result<Option<u32>, Unserved> {
    LogPlace { rt, folder, node }.newest(notes)
}

/// What becomes of a log that is there when a node is started.
#[derive(Clone, Copy)]
enum Fate {
    /// It is empty, and goes on.
    GoesOn,
    /// All of it stands at the front of the newest kept one: it is emptied.
    Emptied,
    /// It is kept, behind the newest kept one, which has this number.
    Kept(Option<u32>),
}

/// Where the log of a node lies, and those that are kept of it.
#[derive(Clone, Copy)]
struct LogPlace<'a> {
    rt: &'a HostRuntime,
    folder: &'a str,
    node: u8,
}

impl LogPlace<'_> {
    /// An empty log in the place of this one: this one itself, or a new one where this one is kept.
    fn begin(
        &self,
        log: File,
        old_logs: &mut Vec<File>,
        notes: &mut Notes<'_>,
    ) -> Result<File, Unserved> {
        let path = log_path(self.rt.alloc(), self.folder, self.node)?;
        match self.fate(&log, path.as_str(), notes)? {
            Fate::GoesOn => Ok(log),
            Fate::Emptied => emptied(log, path.as_str(), notes),
            Fate::Kept(newest) => {
                old_logs.reserve(1)?;
                let new = self.keep(path.as_str(), newest, notes)?;
                old_logs.push_reserved(log);
                Ok(new)
            }
        }
    }

    /// What is to become of this log, which is at this path.
    fn fate(&self, log: &File, path: &str, notes: &mut Notes<'_>) -> Result<Fate, Unserved> {
        if is_empty(log) {
            return Ok(Fate::GoesOn);
        }
        let newest = self.newest(notes)?;
        if self.stands_in(path, newest, notes)? {
            Ok(Fate::Emptied)
        } else {
            Ok(Fate::Kept(newest))
        }
    }

    /// The greatest number of the logs that are kept of the node; none where none is.
    fn newest(&self, notes: &mut Notes<'_>) -> Result<Option<u32>, Unserved> {
        let mut newest = None;
        let names = match fs::read_dir(self.rt, self.folder) {
            Ok(names) => names,
            Err(error) => return Err(no_log(self.folder, &error, notes)),
        };
        for found in names {
            match found {
                Ok(found) => newest = newest.max(kept_number(found.file_name(), self.node)),
                // The name isn't text: it is none of ours.
                Err(error) if error.kind() == io::ErrorKind::InvalidFilename => {}
                Err(error) => return Err(no_log(self.folder, &error, notes)),
            }
        }
        Ok(newest)
    }

    /// Whether all of the log at this path stands at the front of the kept one of this number. A kept one that can't be
    /// read has nothing.
    fn stands_in(
        &self,
        path: &str,
        newest: Option<u32>,
        notes: &mut Notes<'_>,
    ) -> Result<bool, Unserved> {
        let Some(number) = newest else {
            return Ok(false);
        };
        let log = match fs::read(self.rt, path) {
            Ok(log) => log,
            Err(error) => return Err(no_log(path, &error, notes)),
        };
        let kept = kept_log_path(self.rt.alloc(), self.folder, self.node, number)?;
        match fs::read(self.rt, kept.as_str()) {
            Ok(kept) => Ok(stands_in(&log, &kept)),
            Err(error) if error.kind() == io::ErrorKind::OutOfMemory => {
                Err(Unserved::from(AllocError))
            }
            Err(_) => Ok(false),
        }
    }

    /// Renames the log at this path to the number behind the newest, and makes a new one, locked, in its place.
    fn keep(
        &self,
        path: &str,
        newest: Option<u32>,
        notes: &mut Notes<'_>,
    ) -> Result<File, Unserved> {
        let number = match newest {
            Some(newest) => newest.saturating_add(1),
            None => 1,
        };
        let kept = kept_log_path(self.rt.alloc(), self.folder, self.node, number)?;
        match rename_to_new(self.rt, path, kept.as_str()) {
            Ok(()) => {}
            Err(error) => return Err(no_log(kept.as_str(), &error, notes)),
        }
        let mut options = File::options();
        options.read(true).append(true).create_new(true);
        let made = Readers::Group.open(self.rt, &mut options, path);
        had(self.rt, made, path, notes)
    }
}

/// Gives a file a name that no file has; where one has it, nothing is renamed.
fn rename_to_new(rt: &HostRuntime, path: &str, new: &str) -> io::Result<()> {
    match fs::symlink_metadata(rt, new) {
        Ok(_) => Err(io::Error::from(io::ErrorKind::AlreadyExists)),
        Err(error) if error.kind() == io::ErrorKind::NotFound => fs::rename(rt, path, new),
        Err(error) => Err(error),
    }
}

/// Whether a log has nothing. One whose length the system doesn't tell may have something.
fn is_empty(log: &File) -> bool {
    match log.metadata() {
        Ok(data) => data.len() == 0,
        Err(_) => false,
    }
}

/// The log without what it had.
fn emptied(log: File, path: &str, notes: &mut Notes<'_>) -> Result<File, Unserved> {
    match log.set_len(0) {
        Ok(()) => Ok(log),
        Err(error) => Err(no_log(path, &error, notes)),
    }
}
