//! A node of three in a match of one hand, over a disk in memory.

use crate::samples::one_hand;
use dealer_node::{Node, NodeFault, Out};
use promise_store::OnceDisk;
use std::alloc::Global;
use std::process::Abort;
use std::test::Fail;

/// Node 0 of three. Each call of it stands in one function here: what a contract says is read anew wherever its call
/// stands.
#[derive(Drop)]
pub(crate) struct Peer {
    node: Node<OnceDisk>,
}

impl Peer {
    /// A node that is down, over an empty disk in memory.
    fn new(rt: &impl Abort, alloc: Global) -> Result<Peer, NodeFault> {
        let config = one_hand(rt, alloc, 3)?;
        assert!(rt; config.nodes() == 3);
        let node = Node::new(alloc, &config, 0, OnceDisk::new(alloc, 0))?;
        Ok(Peer { node })
    }

    /// The same with a new store.
    pub(crate) fn created(rt: &impl Abort, alloc: Global) -> Result<Peer, Fail> {
        let mut peer = Peer::new(rt, alloc)?;
        peer.create(rt)?;
        Ok(peer)
    }

    /// Makes a new store.
    fn create(&mut self, rt: &impl Abort) -> Result<(), NodeFault> {
        assert!(rt; !self.node.running());
        self.node.create()
    }

    /// Starts the node.
    pub(crate) fn start(&mut self, out: &mut Out) -> Result<(), NodeFault> {
        self.node.start(out)
    }

    /// Orders at the node that the player to act is played for.
    pub(crate) fn away(&mut self, out: &mut Out) -> Result<(), NodeFault> {
        self.node.on_away(out)
    }
}
