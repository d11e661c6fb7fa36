//! What the stores of its peers are known to have promised, which a node keeps beside the lives of these stores.

use crate::made_files::{put_again, write_over};
use node_runs::{KeptPeer, LIFE_LINE_BYTES, PromiseKeeper, kept_peer_text, read_kept_peer};
use operator_notes::life_path;
use paxos_wire::Ballot;
use std::{fs, io};

/// The files `nodeI.peerJ.kept` of a node in a folder.
#[derive(Drop)]
pub(crate) struct PromiseFiles<'a> {
    rt: &'a HostRuntime,
    folder: &'a str,
    node: u8,
}

impl<'a> PromiseFiles<'a> {
    /// Those of this node.
    pub(crate) fn new(rt: &'a HostRuntime, folder: &'a str, node: u8) -> PromiseFiles<'a> {
        PromiseFiles { rt, folder, node }
    }

    /// Has the file of a peer say this ballot, unless it says a greater one. It says whether it does then: not where the file
    /// says no life yet.
    fn put(&self, peer: u8, ballot: Ballot) -> io::Result<bool> {
        let path = life_path(self.rt.alloc(), self.folder, self.node, peer)?;
        let earlier = fs::read(self.rt, path.as_str())?;
        let Some(KeptPeer { life, promised }) = read_kept_peer(&earlier) else {
            return Ok(false);
        };
        if promised >= Some(ballot) {
            return Ok(true);
        }
        let promised = Some(ballot);
        let text = kept_peer_text(self.rt.alloc(), &KeptPeer { life, promised })?;
        self.write(path.as_str(), &earlier, &text)?;
        Ok(true)
    }

    /// Has a text in the place of an earlier one. Where both are as long, the second line is written over, which costs no sync and
    /// touches nothing of the first. Else the file is made anew, and synced, as for the first ballot of a store. Its time stays
    /// that of the first line, by which it is told whether this node promised anything since it met that store.
    fn write(&self, path: &str, earlier: &[u8], text: &[u8]) -> io::Result<()> {
        match text.split_at_checked(LIFE_LINE_BYTES) {
            Some((_, line)) if text.len() == earlier.len() => {
                write_over(self.rt, path, line, LIFE_LINE_BYTES as u64)
            }
            _ => put_again(self.rt, self.folder, path, text),
        }
    }
}

/// No clause can say what files have.
impl PromiseKeeper for PromiseFiles<'_> {
    fn keep(&mut self, peer: u8, ballot: Ballot) -> bool {
        matches!(self.put(peer, ballot), Ok(true))
    }
}
