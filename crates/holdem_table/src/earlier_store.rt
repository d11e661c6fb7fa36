//! What an earlier store of a node left, where `init` is to make a new one.

use crate::init_node::unread;
use crate::notes::Notes;
use dealer_kind::Config;
use match_file::log_header;
use operator_notes::{NodeNote, kept_log_path, kept_number, life_path, log_path, stands_in};
use std::fs::File;
use std::io::Read;
use std::{fs, io};
use streamed::Ending;

/// Refuses a new store (103 `StoreExists`) where a file of the node says which store of a peer it met, `nodeI.peerJ.kept` in
/// this folder of stores. A note names the file.
pub(crate) fn refuse_met_peers(
    rt: &HostRuntime,
    folder: &str,
    node: u8,
    nodes: u8,
    notes: &mut Notes<'_>,
) -> Result<(), Ending> {
    for peer in 0..nodes {
        let path = life_path(rt.alloc(), folder, node, peer)?;
        match fs::symlink_metadata(rt, path.as_str()) {
            Ok(_) => return Err(refused(path.as_str(), notes)),
            Err(error) if error.kind() == io::ErrorKind::OutOfMemory => {
                return Err(Ending::OutOfMemory);
            }
            Err(_) => {}
        }
    }
    Ok(())
}

/// Refuses a new store (103 `StoreExists`) where a log of the node in this folder, also one that was kept, begins with the
/// header of the match. A note names the log. A folder that isn't there has none. `Unreadable` (104) comes where the folder
/// or a log can't be read.
pub(crate) fn refuse_logs(
    rt: &HostRuntime,
    folder: &str,
    node: u8,
    config: &Config,
    notes: &mut Notes<'_>,
) -> Result<(), Ending> {
    let header = log_header(rt.alloc(), config)?;
    let log = log_path(rt.alloc(), folder, node)?;
    refuse_log(rt, log.as_str(), &header, notes)?;
    let names = match fs::read_dir(rt, folder) {
        Ok(names) => names,
        Err(error) if error.kind() == io::ErrorKind::NotFound => return Ok(()),
        Err(error) => return Err(unread(folder, &error, notes)),
    };
    for found in names {
        let number = match found {
            Ok(found) => kept_number(found.file_name(), node),
            // The name isn't text: it is none of ours.
            Err(error) if error.kind() == io::ErrorKind::InvalidFilename => None,
            Err(error) => return Err(unread(folder, &error, notes)),
        };
        if let Some(number) = number {
            let kept = kept_log_path(rt.alloc(), folder, node, number)?;
            refuse_log(rt, kept.as_str(), &header, notes)?;
        }
    }
    Ok(())
}

/// Refuses the log at this path where it begins with this header.
fn refuse_log(
    rt: &HostRuntime,
    path: &str,
    header: &[u8],
    notes: &mut Notes<'_>,
) -> Result<(), Ending> {
    match read_front(rt, path, header.len() as u64) {
        Ok(front) if stands_in(header, &front) => Err(refused(path, notes)),
        Ok(_) => Ok(()),
        Err(error) if error.kind() == io::ErrorKind::NotFound => Ok(()),
        Err(error) => Err(unread(path, &error, notes)),
    }
}

/// The first bytes of a file, at most so many.
fn read_front(rt: &HostRuntime, path: &str, most: u64) -> io::Result<Vec<u8>> {
    let mut front = Vec::new(rt.alloc());
    File::open(rt, path)?.take(most).read_to_end(&mut front)?;
    Ok(front)
}

/// The ending where an earlier store left this file; a note names it.
fn refused(path: &str, notes: &mut Notes<'_>) -> Ending {
    notes.tell_node(&NodeNote::NotReplaced(path));
    Ending::StoreExists
}
