//! What `init` does: the empty stores of a match's nodes, one file for each, beside the file that says of which match
//! they are.

use crate::arguments::GREATEST_NODE;
use crate::kept_match::{keep_match, kept_path, unmade_file};
use crate::made_files::Readers;
use crate::match_files::named;
use crate::notes::Notes;
use crate::seeds::tell_seeds;
use crate::store_files::cause;
use dealer_kind::Config;
use match_file::MatchFile;
use operator_notes::{Cause, store_path};
use promise_store::{FileDisk, Store, StoreFault};
use std::alloc::AllocError;
use std::fs::File;
use std::io::Write;
use std::{fs, io};
use streamed::Ending;

/// Makes `match.kept` and the empty stores of a match's nodes: the files `node0.journal` and so on in the folder that the
/// match file names, each on the disk before the next is made, and then the folder's entries.
///
/// The match file's first six keys are looked at, and its game file. `StoreExists` (103) comes where one of the files
/// is there before any is made; then nothing is made or touched. `Store` (63) comes where a file can't be made or
/// written; those that were made stay. Notes go to standard error, one a line: each file that was made; keys of the match
/// file that no command reads; and before a fault the file that it is about, where it is about one.
pub(crate) fn init(rt: &HostRuntime, path: &str) -> Ending {
    match make_stores(rt, path, &mut Notes::new(rt, false)) {
        Ok(()) => Ending::Done,
        Err(ending) => ending,
    }
}

/// The steps of it once there is a match file.
fn make_stores(rt: &HostRuntime, path: &str, notes: &mut Notes<'_>) -> Result<(), Ending> {
    let text = read(rt, path, notes)?;
    let file = named(path, MatchFile::read(rt.alloc(), &text), notes)?;
    tell_unused(rt, &file, notes)?;
    let game = read(rt, named(path, file.game(), notes)?, notes)?;
    let config = named(path, file.config(rt.alloc(), Some(&game)), notes)?;
    let folder = named(path, file.stores(), notes)?;
    tell_seeds(rt, &config, notes)?;
    make_files(rt, folder, &config, &game, notes)
}

/// The match of a match file, of which the first six keys are looked at, and its game file. Notes tell the keys that no command
/// reads.
pub(crate) fn read_config(
    rt: &HostRuntime,
    path: &str,
    notes: &mut Notes<'_>,
) -> Result<Config, Ending> {
    let text = read(rt, path, notes)?;
    let file = named(path, MatchFile::read(rt.alloc(), &text), notes)?;
    tell_unused(rt, &file, notes)?;
    let game = read(rt, named(path, file.game(), notes)?, notes)?;
    Ok(named(path, file.config(rt.alloc(), Some(&game)), notes)?)
}

/// Writes what `init` has for standard output: `StreamFailed` (107) where it can't be written.
pub(crate) fn print(rt: &HostRuntime, text: &[u8]) -> Result<(), Ending> {
    let mut output = rt.stdout();
    match output.write_all(text) {
        Ok(()) => Ok(()),
        Err(error) if error.kind() == io::ErrorKind::OutOfMemory => Err(Ending::OutOfMemory),
        Err(_) => Err(Ending::StreamFailed),
    }
}

/// Makes the files in this folder. All places are looked at before a file is made, so that no match gets half of its
/// stores anew.
fn make_files(
    rt: &HostRuntime,
    folder: &str,
    config: &Config,
    game: &[u8],
    notes: &mut Notes<'_>,
) -> Result<(), Ending> {
    let nodes = config.nodes() as u8;
    for node in 0..nodes {
        let path = store_path(rt.alloc(), folder, node)?;
        refuse_present(rt, path.as_str(), notes)?;
    }
    let path = kept_path(rt.alloc(), folder)?;
    refuse_present(rt, path.as_str(), notes)?;
    keep_match(rt, folder, config, game, notes)?;
    sync_folder(rt, folder, notes)?;
    for node in 0..nodes {
        let path = store_path(rt.alloc(), folder, node)?;
        make_store(rt, path.as_str(), (node, nodes), notes)?;
    }
    sync_folder(rt, folder, notes)
}

/// Tells the keys of a match file that no command reads, and then those in the tables of its nodes.
pub(crate) fn tell_unused(
    rt: &HostRuntime,
    file: &MatchFile,
    notes: &mut Notes<'_>,
) -> Result<(), AllocError> {
    for key in file.unused(rt.alloc())? {
        notes.tell_unused(key);
    }
    for node in 0..=GREATEST_NODE as u8 {
        for key in file.unused_in_node(rt.alloc(), node as usize)? {
            notes.tell_unused_in_node(node, key);
        }
    }
    Ok(())
}

/// All that a file has. A note names one that can't be read.
pub(crate) fn read(rt: &HostRuntime, path: &str, notes: &mut Notes<'_>) -> Result<Vec<u8>, Ending> {
    match fs::read(rt, path) {
        Ok(text) => Ok(text),
        Err(error) => {
            let ending = Ending::unread(&error);
            if let Ending::Unreadable = ending {
                notes.tell_file(path, Cause::of(error.kind()));
            }
            Err(ending)
        }
    }
}

/// Refuses a place that is taken, be it by a link that leads nowhere: a store is never made anew. A note names it.
pub(crate) fn refuse_present(
    rt: &HostRuntime,
    path: &str,
    notes: &mut Notes<'_>,
) -> Result<(), Ending> {
    match fs::symlink_metadata(rt, path) {
        Ok(_) => {
            notes.tell_file(path, Cause::ThereAlready);
            Err(Ending::StoreExists)
        }
        Err(error) if error.kind() == io::ErrorKind::OutOfMemory => Err(Ending::OutOfMemory),
        Err(_) => Ok(()),
    }
}

/// Makes the store of a node, one of so many, in a file of its own, which must not be there.
pub(crate) fn make_store(
    rt: &HostRuntime,
    path: &str,
    (node, nodes): (u8, u8),
    notes: &mut Notes<'_>,
) -> Result<(), Ending> {
    let mut options = File::options();
    options.read(true).write(true).create_new(true);
    let file = match Readers::Owner.open(rt, &mut options, path) {
        Ok(file) => file,
        Err(error) => return Err(unmade_file(path, &error, notes)),
    };
    match Store::create(rt.alloc(), FileDisk::new(file), node, nodes) {
        Ok(_) => {
            notes.tell_made(path);
            Ok(())
        }
        Err((disk, fault)) => {
            if let StoreFault::Disk = fault {
                notes.tell_file(path, cause(&disk));
            }
            Err(Ending::Store(fault))
        }
    }
}

/// Has the names of the files that were made on the disk.
pub(crate) fn sync_folder(
    rt: &HostRuntime,
    folder: &str,
    notes: &mut Notes<'_>,
) -> Result<(), Ending> {
    let synced = match File::open(rt, folder) {
        Ok(folder) => folder.sync_all(),
        Err(error) => Err(error),
    };
    match synced {
        Ok(()) => Ok(()),
        Err(error) => Err(unmade_file(folder, &error, notes)),
    }
}
