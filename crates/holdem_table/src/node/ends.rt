//! What is told where a node's process ends.

use super::opening::Kept;
use super::{Place, TcpNode};
use crate::life_files::LifeFiles;
use crate::notes::Notes;
use crate::store_files::cause;
use dealer_node::NodeFault;
use node_runs::NodeEnd;
use node_wires::Failed;
use operator_notes::{Cause, NodeNote, kept_log_path, log_path, store_path};
use std::alloc::AllocError;

impl<'a> Place<'a> {
    /// Tells the hand whose line would have differed in the log from that of this kept one.
    pub(super) fn tell_difference(
        &self,
        hand: u32,
        kept: &Kept,
        notes: &mut Notes<'_>,
    ) -> Result<(), AllocError> {
        let log = log_path(self.rt.alloc(), self.logs, self.node)?;
        let kept = kept_log_path(self.rt.alloc(), self.logs, self.node, kept.number)?;
        notes.tell_node(&NodeNote::LogDiffers {
            log: log.as_str(),
            hand,
            kept: kept.as_str(),
        });
        Ok(())
    }

    /// Tells the file that was at fault where the process ends, if one was, and what is to be done about an older copy of a store.
    pub(super) fn tell_end(
        &self,
        server: &TcpNode<'_, '_>,
        lives: &LifeFiles<'_>,
        end: NodeEnd,
        notes: &mut Notes<'_>,
    ) -> Result<(), AllocError> {
        if lives.tell_failed(notes)? {
            return Ok(());
        }
        match end {
            NodeEnd::Node(NodeFault::Store(_)) => {
                let path = store_path(self.rt.alloc(), self.stores, self.node)?;
                notes.tell_file(path.as_str(), store_cause(server));
            }
            NodeEnd::StoreOlder => {
                let path = store_path(self.rt.alloc(), self.stores, self.node)?;
                notes.tell_node(&NodeNote::OlderCopy(path.as_str()));
            }
            NodeEnd::LogFailed => {
                let path = log_path(self.rt.alloc(), self.logs, self.node)?;
                notes.tell_file(path.as_str(), log_cause(server));
            }
            _ => {}
        }
        Ok(())
    }
}

/// Why the system refused a call of the node's disk, if it refused one.
fn store_cause(server: &TcpNode<'_, '_>) -> Cause {
    match server.station().node().disk() {
        Some(disk) => cause(disk),
        None => Cause::Unknown,
    }
}

/// Why the system refused text for the log, if it refused some.
fn log_cause(server: &TcpNode<'_, '_>) -> Cause {
    match server.wire().wire().failed() {
        Some(Failed::Log { kind }) => Cause::of(kind),
        _ => Cause::Unknown,
    }
}
