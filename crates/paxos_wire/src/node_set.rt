ghost use Rattle.std.specs.Prelude.{◌≡◌, ◌<◌, ◌≤◌, true, slice_set};
ghost use Rattle.paxos_wire.specs.NodeSets.{no_nodes, is_quorum};

use crate::limits::{NODES, PLACES};
use std::marker::Model;

/// A set of nodes, as majorities are counted by: a node is in it once, however many of its messages came.
///
/// Contracts see it as a list that says of each node, from 0 on, whether it is in the set.
#[derive(Clone, Copy, Debug, Drop)]
pub struct NodeSet {
    marks: [bool; PLACES],
}

impl Model for NodeSet {
    ghost use Rattle.std.specs.Prelude.{List, Bool};

    ghost Value = { List Bool };

    ghost view = { λ s. s.marks };

    ghost inverse = { λ marks. record { marks = marks } };
}

impl NodeSet {
    /// The set of no nodes.
    pub fn empty() -> NodeSet
        ensures { result ≡ no_nodes }
    {
        NodeSet {
            marks: [false; PLACES],
        }
    }

    /// Puts a node into it, which may be in it already.
    pub fn add(&mut self, node: u8)
        requires { node < NODES }
        ensures { self.new ≡ slice_set self.old node true }
    {
        self.marks[node as usize] = true;
    }

    /// Whether more than half of so many nodes are in it.
    pub fn is_quorum(&self, nodes: u8) -> bool
        requires { nodes ≤ NODES }
        ensures { result ≡ is_quorum nodes self.now }
    {
        let mut counted: usize = 0;
        for node in 0..nodes as usize {
            if self.marks[node] {
                counted += 1;
            }
        }
        (nodes as usize) < 2 * counted
    }
}
