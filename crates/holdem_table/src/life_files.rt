//! The lives of its peers' stores that a node knows, each in a file beside its own store.

use crate::identity::refused;
use crate::kept_match::unread;
use crate::made_files::{Readers, put};
use crate::notes::Notes;
use crate::open_files::tell_open_file;
use dealer_node::NodeFault;
use match_file::{Difference, life_text};
use match_runs::Unserved;
use node_runs::{KeptPeer, LifeKeeper, read_kept_peer};
use operator_notes::{Cause, life_path};
use peer_codes::Life;
use promise_store::StoreFault;
use std::alloc::AllocError;
use std::{fs, io};

/// The files `nodeI.peerJ.kept` of a node in a folder.
#[derive(Drop)]
pub(crate) struct LifeFiles<'a> {
    rt: &'a HostRuntime,
    folder: &'a str,
    node: u8,
    /// The peer whose file couldn't be made, and why.
    failed: Option<(u8, Cause)>,
}

impl<'a> LifeFiles<'a> {
    /// Those of this node.
    pub(crate) fn new(rt: &'a HostRuntime, folder: &'a str, node: u8) -> LifeFiles<'a> {
        LifeFiles {
            rt,
            folder,
            node,
            failed: None,
        }
    }

    /// What is kept of each node, by number; none of a peer whose file isn't there. `OtherMatch` (109) comes where a file says
    /// nothing. A note names it, and one that can't be read, or that others can read.
    pub(crate) fn read(
        &self,
        nodes: u8,
        notes: &mut Notes<'_>,
    ) -> Result<Vec<Option<KeptPeer>>, Unserved> {
        let mut kept = Vec::with_capacity(self.rt.alloc(), nodes as usize)?;
        for peer in 0..nodes {
            let path = life_path(self.rt.alloc(), self.folder, self.node, peer)?;
            kept.reserve(1)?;
            kept.push_reserved(self.read_at(path.as_str(), notes)?);
        }
        Ok(kept)
    }

    /// What the file at this path says.
    fn read_at(&self, path: &str, notes: &mut Notes<'_>) -> Result<Option<KeptPeer>, Unserved> {
        match fs::read(self.rt, path) {
            Ok(text) => {
                tell_open_file(self.rt, path, notes);
                match read_kept_peer(&text) {
                    Some(kept) => Ok(Some(kept)),
                    None => Err(refused(path, Difference::Unread, notes)),
                }
            }
            Err(error) if error.kind() == io::ErrorKind::NotFound => Ok(None),
            Err(error) => Err(unread(path, &error, notes)),
        }
    }

    /// Makes the file of a peer.
    fn make(&self, peer: u8, life: &Life) -> io::Result<()> {
        let path = life_path(self.rt.alloc(), self.folder, self.node, peer)?;
        let text = life_text(self.rt.alloc(), &life.bytes)?;
        put(self.rt, self.folder, path.as_str(), &text, Readers::Owner)
    }

    /// Tells the file that couldn't be made, if one couldn't. It says whether there was one.
    pub(crate) fn tell_failed(&self, notes: &mut Notes<'_>) -> Result<bool, AllocError> {
        let Some((peer, cause)) = self.failed else {
            return Ok(false);
        };
        let path = life_path(self.rt.alloc(), self.folder, self.node, peer)?;
        notes.tell_file(path.as_str(), cause);
        Ok(true)
    }
}

/// No clause can say what files have.
impl LifeKeeper for LifeFiles<'_> {
    ghost kept = { λ _ _ _ _. Unit {0} };

    fn keep(&mut self, peer: u8, life: &Life) -> Result<(), NodeFault> {
        match self.make(peer, life) {
            Ok(()) => Ok(()),
            Err(error) if error.kind() == io::ErrorKind::OutOfMemory => {
                Err(NodeFault::OutOfMemory)
            }
            Err(error) => {
                self.failed = Some((peer, Cause::of(error.kind())));
                Err(NodeFault::Store(StoreFault::Disk))
            }
        }
    }
}
