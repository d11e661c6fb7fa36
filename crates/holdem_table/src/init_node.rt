//! What `init` does for one node alone, which runs in a process of its own: its empty store, and beside it of which match
//! and whose it is.

ghost use Rattle.std.specs.Prelude.{◌<◌, length};

use crate::earlier_store::{refuse_logs, refuse_met_peers};
use crate::identity::difference;
use crate::init::{make_store, read, refuse_present, sync_folder, tell_unused};
use crate::kept_match::{kept_path, unmade_file};
use crate::made_files::{Readers, put};
use crate::match_files::named;
use crate::notes::Notes;
use crate::seeds::tell_own_seed;
use dealer_kind::Config;
use match_file::{
    Key, MatchFault, MatchFile, MatchId, NodeKept, identified_text, kept_text, node_kept_text,
    source_digest,
};
use operator_notes::{Cause, NodeNote, node_kept_path, store_path};
use std::random::RandomSource;
use std::{fs, io};
use streamed::Ending;

/// Makes the empty store of a node, `nodeI.journal` in the folder that the match file names, and before it `nodeI.kept`, which
/// says whose it is. Of node 0 it makes `match.kept` before that, unless it is there; for the other nodes that file is copied
/// from the machine of node 0. Each file is on the disk before the next is made.
///
/// The match file's first six keys are looked at, its game file, and `logs` where it is there. `StoreExists` (103) comes where
/// the node's store is there, or what an earlier store of it left: a file that says which store of a peer it met, or a log of
/// the match. `Unreadable` (104) comes where such a log can't be read, or `match.kept` isn't there for a node other than 0,
/// `OtherMatch` (109) where that is of another match or of one that `serve` deals. Then nothing is made. `Store` (63) comes where a file can't be made or written. What was made
/// by then stays, and a `nodeI.kept` without its store is made anew. Notes go to standard error, as of `init`.
pub(crate) fn init_node(rt: &HostRuntime, path: &str, node: u8) -> Ending {
    match make_node(rt, path, node, &mut Notes::new(rt, false)) {
        Ok(()) => Ending::Done,
        Err(ending) => ending,
    }
}

/// The steps of it.
fn make_node(rt: &HostRuntime, path: &str, node: u8, notes: &mut Notes<'_>) -> Result<(), Ending> {
    let text = read(rt, path, notes)?;
    let file = named(path, MatchFile::read(rt.alloc(), &text), notes)?;
    tell_unused(rt, &file, notes)?;
    let game = read(rt, named(path, file.game(), notes)?, notes)?;
    let config = named(path, file.config(rt.alloc(), Some(&game)), notes)?;
    let folder = named(path, file.stores(), notes)?;
    if node as usize >= config.nodes() {
        notes.tell_no_such_node(node, config.nodes() as u8);
        return Err(Ending::Match(MatchFault::BadEntry(Key::Node)));
    }
    tell_own_seed(&config, node, notes);
    let store = store_path(rt.alloc(), folder, node)?;
    refuse_present(rt, store.as_str(), notes)?;
    refuse_met_peers(rt, folder, node, config.nodes() as u8, notes)?;
    if let Some(logs) = file.logs() {
        refuse_logs(rt, logs, node, &config, notes)?;
    }
    make_files(rt, folder, node, &config, &game, notes)
}

/// Makes the files in this folder, where the node had no store.
fn make_files(
    rt: &HostRuntime,
    folder: &str,
    node: u8,
    config: &Config,
    game: &[u8],
    notes: &mut Notes<'_>,
) -> Result<(), Ending>
    requires { node < length config.now.sources }
{
    let store = store_path(rt.alloc(), folder, node)?;
    keep_identity(rt, folder, node, config, game, notes)?;
    keep_node(rt, folder, node, config, notes)?;
    make_store(rt, store.as_str(), (node, config.nodes() as u8), notes)?;
    sync_folder(rt, folder, notes)
}

/// Has `match.kept` there, of this match: it is made for node 0 where it isn't.
fn keep_identity(
    rt: &HostRuntime,
    folder: &str,
    node: u8,
    config: &Config,
    game: &[u8],
    notes: &mut Notes<'_>,
) -> Result<(), Ending> {
    let path = kept_path(rt.alloc(), folder)?;
    match fs::read(rt, path.as_str()) {
        Ok(text) => compare(config, &text, path.as_str(), notes),
        Err(error) if error.kind() == io::ErrorKind::NotFound => {
            if node == 0 {
                return make_identity(rt, folder, path.as_str(), config, game, notes);
            }
            notes.tell_node(&NodeNote::NotCopied(path.as_str()));
            Err(Ending::Unreadable)
        }
        Err(error) => Err(unread(path.as_str(), &error, notes)),
    }
}

/// Refuses the `match.kept` of another match, or of one that `serve` deals; a note names it.
fn compare(config: &Config, text: &[u8], path: &str, notes: &mut Notes<'_>) -> Result<(), Ending> {
    match difference(config, text) {
        Some(difference) => {
            notes.tell_file(path, Cause::Unknown);
            Err(Ending::OtherMatch(difference))
        }
        None => Ok(()),
    }
}

/// The ending where a file can't be read; a note names it, unless it is for want of memory.
pub(crate) fn unread(path: &str, error: &io::Error, notes: &mut Notes<'_>) -> Ending {
    let ending = Ending::unread(error);
    if let Ending::Unreadable = ending {
        notes.tell_file(path, Cause::of(error.kind()));
    }
    ending
}

/// Makes `match.kept`, with an identity that is drawn here.
fn make_identity(
    rt: &HostRuntime,
    folder: &str,
    path: &str,
    config: &Config,
    game: &[u8],
    notes: &mut Notes<'_>,
) -> Result<(), Ending> {
    let bytes = drawn(rt, notes)?;
    let id = MatchId { bytes };
    let kept = kept_text(rt.alloc(), config, game)?;
    let text = identified_text(rt.alloc(), &id, &kept)?;
    put_file(rt, folder, path, &text, Readers::All, notes)
}

/// Makes `nodeI.kept`, with a life that is drawn here, in place of one that is there.
fn keep_node(
    rt: &HostRuntime,
    folder: &str,
    node: u8,
    config: &Config,
    notes: &mut Notes<'_>,
) -> Result<(), Ending>
    requires { node < length config.now.sources }
{
    let life = drawn(rt, notes)?;
    let decks = source_digest(rt.alloc(), config.source(node as usize))?;
    let kept = NodeKept { node, life, decks };
    let path = node_kept_path(rt.alloc(), folder, node)?;
    let text = node_kept_text(rt.alloc(), &kept)?;
    put_file(rt, folder, path.as_str(), &text, Readers::Owner, notes)
}

/// So many random bytes.
pub(crate) fn drawn<const N: usize>(
    rt: &HostRuntime,
    notes: &mut Notes<'_>,
) -> Result<[u8; N], Ending> {
    let mut bytes = [0; N];
    match rt.fill_bytes(&mut bytes) {
        Ok(()) => Ok(bytes),
        Err(error) => Err(unmade_file("random bytes", &error, notes)),
    }
}

/// Makes a file in this folder, or another in its place. A note says so, or why it can't be.
fn put_file(
    rt: &HostRuntime,
    folder: &str,
    path: &str,
    text: &[u8],
    readers: Readers,
    notes: &mut Notes<'_>,
) -> Result<(), Ending> {
    match put(rt, folder, path, text, readers) {
        Ok(()) => {
            notes.tell_made(path);
            Ok(())
        }
        Err(error) => Err(unmade_file(path, &error, notes)),
    }
}
