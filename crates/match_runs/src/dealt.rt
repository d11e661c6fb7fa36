//! How many hands the nodes of a match know.

ghost use Rattle.std.specs.Prelude.{◌≡◌, get_or};
ghost use Rattle.dealer_world.specs.Viewing.{view_of};
ghost use Rattle.match_runs.specs.Notes.{newest_of};
ghost use Rattle.match_runs.specs.Turning.{AreDealt};

use dealer_world::Cluster;
use match_links::limits::NODES;
use promise_store::Disk;

/// How many hands were dealt at each node, by its own table; nodes are counted from 0. At a node that is down it is none.
///
/// It is looked at before a turn: an order may leave its node down, and so without a table.
#[derive(Clone, Copy)]
pub(crate) struct Dealt {
    hands: [u32; NODES],
}

impl Dealt {
    /// Of the nodes of a cluster.
    pub(crate) fn at<D: Disk + Drop>(cluster: &Cluster<D>) -> Dealt
        ensures { AreDealt D.Disk (view_of cluster.now) result.hands }
    {
        cluster.limits();
        let mut hands = [0; NODES];
        for node in 0..cluster.config().nodes() {
            hands[node] = cluster.node(node).table().dealt();
        }
        Dealt { hands }
    }

    /// The newest hand of a node; none where none was dealt there, or where no node has this number.
    pub(crate) fn newest(&self, node: u8) -> Option<u32>
        ensures { result ≡ newest_of (get_or self.now.hands node 0) }
    {
        match self.hands.get(node as usize) {
            None | Some(0) => None,
            Some(count) => Some(*count - 1),
        }
    }
}
