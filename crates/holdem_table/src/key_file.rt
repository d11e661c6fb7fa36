//! The file of a match's key, which all its processes share: read by `node`, and made by `init MATCH --key FILE`.

use crate::init::read_config;
use crate::init_node::drawn;
use crate::kept_match::unmade_file;
use crate::made_files::{Readers, make, sync};
use crate::notes::Notes;
use match_file::{Key as Entry, MatchFault};
use match_runs::Unserved;
use node_runs::{key_text, read_key};
use operator_notes::{Cause, KeyFault, NodeNote};
use peer_codes::Key;
use std::alloc::AllocError;
use std::fs::{File, Metadata};
use std::io::Read;
use std::os::unix::fs::MetadataExt;
use std::path::Path;
use std::{fs, io};
use streamed::Ending;

/// The key in this file. Where it can't be had, or is no key, it is `BadEntry` (101) of `key`; a note says why, and names the
/// file.
pub(crate) fn key_at(rt: &HostRuntime, path: &str, notes: &mut Notes<'_>) -> Result<Key, Unserved> {
    match key_in(rt, path) {
        Ok(Ok(key)) => return Ok(key),
        Ok(Err(fault)) => notes.tell_node(&NodeNote::BadKey(path, fault)),
        Err(error) if error.kind() == io::ErrorKind::OutOfMemory => {
            return Err(Unserved::from(AllocError));
        }
        Err(error) => notes.tell_file(path, Cause::of(error.kind())),
    }
    Err(Unserved::Match(MatchFault::BadEntry(Entry::KeyFile)))
}

/// What a file has for a key. It is looked at before it is opened, since whoever opens a pipe waits for its other end, and
/// once more when it is open, since by then another may stand there.
fn key_in(rt: &HostRuntime, path: &str) -> io::Result<Result<Key, KeyFault>> {
    if let Some(fault) = fault_of(&fs::metadata(rt, path)?) {
        return Ok(Err(fault));
    }
    let mut file = File::open(rt, path)?;
    if let Some(fault) = fault_of(&file.metadata()?) {
        return Ok(Err(fault));
    }
    let mut text = Vec::new(rt.alloc());
    file.read_to_end(&mut text)?;
    match read_key(&text) {
        Some(key) => Ok(Ok(key)),
        None => Ok(Err(KeyFault::NotDigits)),
    }
}

/// Why a file isn't taken for a key's: by its kind, its rights and its length, and then by its owner, who must be the user of
/// this process.
fn fault_of(file: &Metadata) -> Option<KeyFault> {
    match KeyFault::of(file) {
        None if file.uid() != libc::geteuid() => Some(KeyFault::NotOwned),
        fault => fault,
    }
}

/// Makes the file of a key that is drawn here, which its owner alone may use, and has it and its name on the disk.
///
/// The match file's first six keys are looked at, and its game file, as of `init`; nothing else is made. `StoreExists` (103)
/// comes where something has that name already, which is never written over; `Store` (63) where the file can't be made or
/// written. Notes go to standard error, as of `init`.
pub(crate) fn init_key(rt: &HostRuntime, path: &str, key: &str) -> Ending {
    match make_key(rt, path, key, &mut Notes::new(rt, false)) {
        Ok(()) => Ending::Done,
        Err(ending) => ending,
    }
}

/// The steps of it.
fn make_key(rt: &HostRuntime, path: &str, key: &str, notes: &mut Notes<'_>) -> Result<(), Ending> {
    read_config(rt, path, notes)?;
    let bytes = drawn(rt, notes)?;
    let digits = key_text(rt.alloc(), &Key { bytes })?;
    match put_key(rt, key, &digits) {
        Ok(()) => {
            notes.tell_made(key);
            Ok(())
        }
        Err(error) if error.kind() == io::ErrorKind::AlreadyExists => {
            notes.tell_file(key, Cause::ThereAlready);
            Err(Ending::StoreExists)
        }
        Err(error) => Err(unmade_file(key, &error, notes)),
    }
}

/// Makes the file of a key, and has it and its name on the disk.
fn put_key(rt: &HostRuntime, path: &str, digits: &[u8]) -> io::Result<()> {
    make(rt, path, digits, Readers::Owner)?;
    sync(rt, folder_of(path))
}

/// The folder in which a file stands.
fn folder_of(path: &str) -> &str {
    match Path::new(path).parent() {
        Some(folder) if !folder.as_str().is_empty() => folder.as_str(),
        _ => ".",
    }
}
