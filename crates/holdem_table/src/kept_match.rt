//! The file `match.kept` beside a match's stores, which says of which match they are.

use crate::made_files::{Readers, make};
use crate::notes::Notes;
use dealer_kind::Config;
use match_file::{Difference, kept_difference, kept_text};
use match_runs::{Unserved, unmade};
use operator_notes::{Cause, node_kept_path, store_path};
use std::alloc::{AllocError, Global};
use std::{fs, io};
use streamed::Ending;

/// The name of the file in this folder of stores.
pub(crate) fn kept_path(alloc: Global, folder: &str) -> Result<String, AllocError> {
    let path = format!(in alloc; "{folder}/match.kept")?;
    Ok(path)
}

/// Makes the file of a match whose game file has these bytes, and has it on the disk. It must not be there.
pub(crate) fn keep_match(
    rt: &HostRuntime,
    folder: &str,
    config: &Config,
    game: &[u8],
    notes: &mut Notes<'_>,
) -> Result<(), Ending> {
    let path = kept_path(rt.alloc(), folder)?;
    let text = kept_text(rt.alloc(), config, game)?;
    match make(rt, path.as_str(), &text, Readers::All) {
        Ok(()) => {
            notes.tell_made(path.as_str());
            Ok(())
        }
        Err(error) => Err(unmade_file(path.as_str(), &error, notes)),
    }
}

/// The ending where a file can't be made; a note names it, unless it is for want of memory.
pub(crate) fn unmade_file(path: &str, error: &io::Error, notes: &mut Notes<'_>) -> Ending {
    let ending = unmade(error);
    if !matches!(ending, Ending::OutOfMemory) {
        notes.tell_file(path, Cause::of(error.kind()));
    }
    ending
}

/// Refuses stores that were made for nodes in processes of their own (109), those that are kept for another match than this
/// one, or for no match that can be told. Where the file isn't there, and stores are, a note says that nothing can be told.
pub(crate) fn compare_kept(
    rt: &HostRuntime,
    folder: &str,
    config: &Config,
    notes: &mut Notes<'_>,
) -> Result<(), Unserved> {
    refuse_processes(rt, folder, config.nodes() as u8, notes)?;
    let path = kept_path(rt.alloc(), folder)?;
    match fs::read(rt, path.as_str()) {
        Ok(text) => compare(config, &text, path.as_str(), notes),
        Err(error) if error.kind() == io::ErrorKind::NotFound => tell_missing(rt, folder, notes),
        Err(error) => Err(unread(path.as_str(), &error, notes)),
    }
}

/// Refuses a folder where one of so many nodes has a store for a process of its own; a note names what says so.
fn refuse_processes(
    rt: &HostRuntime,
    folder: &str,
    nodes: u8,
    notes: &mut Notes<'_>,
) -> Result<(), Unserved> {
    for node in 0..nodes {
        let path = node_kept_path(rt.alloc(), folder, node)?;
        if fs::symlink_metadata(rt, path.as_str()).is_ok() {
            notes.tell_file(path.as_str(), Cause::ThereAlready);
            return Err(Unserved::OtherMatch(Difference::Command));
        }
    }
    Ok(())
}

/// Refuses the text of another match's file; a note names that.
fn compare(
    config: &Config,
    text: &[u8],
    path: &str,
    notes: &mut Notes<'_>,
) -> Result<(), Unserved> {
    match kept_difference(config, text) {
        Some(difference) => {
            notes.tell_file(path, Cause::Unknown);
            Err(Unserved::OtherMatch(difference))
        }
        None => Ok(()),
    }
}

/// Tells that nothing says of which match the stores are, where the first of them is there.
fn tell_missing(rt: &HostRuntime, folder: &str, notes: &mut Notes<'_>) -> Result<(), Unserved> {
    let store = store_path(rt.alloc(), folder, 0)?;
    if fs::metadata(rt, store.as_str()).is_ok() {
        notes.tell_not_kept();
    }
    Ok(())
}

/// Why it isn't served where a file can't be read; a note names it, unless it is for want of memory.
pub(crate) fn unread(path: &str, error: &io::Error, notes: &mut Notes<'_>) -> Unserved {
    let why = Unserved::unread(error);
    if let Unserved::Unreadable = why {
        notes.tell_file(path, Cause::of(error.kind()));
    }
    why
}
