//! What lies beside the store of a node that runs in a process of its own: which match it is of, and whose it is.

ghost use Rattle.std.specs.Prelude.{◌<◌, length};

use crate::kept_match::{kept_path, unread};
use crate::notes::Notes;
use crate::open_files::tell_open_file;
use dealer_kind::Config;
use match_file::{
    Difference, NodeKept, kept_difference, read_identified, read_node_kept, source_digest,
};
use match_runs::Unserved;
use operator_notes::{Cause, NodeNote, node_kept_path};
use peer_codes::{Life, MatchDigest};
use sha2::{Digest, Sha256};
use std::{fs, io};

/// Of which match a store is, and which of the stores that its node had.
#[derive(Clone, Copy)]
pub(crate) struct Identity {
    /// The digest of the file `match.kept`.
    pub(crate) digest: MatchDigest,
    /// What was drawn when the store was made.
    pub(crate) life: Life,
}

/// Reads what lies beside the store of a node in this folder, and refuses what isn't there (104), is of another match (109), of
/// no match that can be told, or was made for another source of deals than the match file says. A note names the file, and
/// `nodeI.kept` where others can read it.
pub(crate) fn identify(
    rt: &HostRuntime,
    folder: &str,
    node: u8,
    config: &Config,
    notes: &mut Notes<'_>,
) -> Result<Identity, Unserved>
    requires { node < length config.now.sources }
{
    let path = kept_path(rt.alloc(), folder)?;
    let text = read_kept(rt, path.as_str(), notes)?;
    if let Some(difference) = difference(config, &text) {
        return Err(refused(path.as_str(), difference, notes));
    }
    let kept = read_node(rt, folder, node, config, notes)?;
    let digest = Sha256::digest(text.as_slice());
    let life = kept.life;
    Ok(Identity {
        digest: MatchDigest { bytes: digest },
        life: Life { bytes: life },
    })
}

/// In what the text of a `match.kept` is of another match; none where it is this one's, and has an identity.
pub(crate) fn difference(config: &Config, text: &[u8]) -> Option<Difference> {
    match read_identified(text) {
        Some((_, kept)) => kept_difference(config, kept),
        None => Some(Difference::Unread),
    }
}

/// What `nodeI.kept` says, which must be of this node and of its source of deals.
fn read_node(
    rt: &HostRuntime,
    folder: &str,
    node: u8,
    config: &Config,
    notes: &mut Notes<'_>,
) -> Result<NodeKept, Unserved>
    requires { node < length config.now.sources }
{
    let path = node_kept_path(rt.alloc(), folder, node)?;
    let text = read_kept(rt, path.as_str(), notes)?;
    tell_open_file(rt, path.as_str(), notes);
    let Some(kept) = read_node_kept(&text) else {
        return Err(refused(path.as_str(), Difference::Unread, notes));
    };
    let decks = source_digest(rt.alloc(), config.source(node as usize))?;
    if kept.node != node || kept.decks != decks {
        return Err(refused(path.as_str(), Difference::Node, notes));
    }
    Ok(kept)
}

/// What a file beside a store has, which `init` makes before the store. A note names one that isn't there or can't be read
/// (104).
fn read_kept(rt: &HostRuntime, path: &str, notes: &mut Notes<'_>) -> Result<Vec<u8>, Unserved> {
    match fs::read(rt, path) {
        Ok(text) => Ok(text),
        Err(error) if error.kind() == io::ErrorKind::NotFound => {
            notes.tell_node(&NodeNote::NotMade(path));
            Err(Unserved::Unreadable)
        }
        Err(error) => Err(unread(path, &error, notes)),
    }
}

/// Why a match isn't served where a file is of another one, or of none that can be told; a note names the file.
pub(crate) fn refused(path: &str, difference: Difference, notes: &mut Notes<'_>) -> Unserved {
    notes.tell_file(path, Cause::Unknown);
    Unserved::OtherMatch(difference)
}
