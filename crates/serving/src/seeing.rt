//! What is seen of the nodes of a cluster.

ghost use Rattle.std.specs.Prelude.{◌≡◌};
ghost use Rattle.dealer_world.specs.Viewing.{view_of};
ghost use Rattle.serving.specs.Lowest.{IsLowestFront};
ghost use Rattle.serving.specs.Outing.{outages_in};
ghost use Rattle.serving.specs.Sights.{acting_seat, IsSight, AreSights};

use crate::known::NodeSight;
use crate::outages::Outages;
use arrayvec::ArrayVec;
use dealer_node::Node;
use dealer_world::Cluster;
use match_links::limits::NODES;
use promise_store::Disk;
use slot_log::Table;

/// The nodes of a cluster, in order; which of them are to be out is said for so many commands.
pub(crate) fn sights<D: Disk + Drop>(
    cluster: &Cluster<D>,
    outages: &Outages,
    count: u64,
) -> ArrayVec<NodeSight, NODES>
    ensures { AreSights D.Disk (view_of cluster.now).nodes (outages_in outages.now) count result.items }
{
    cluster.limits();
    cluster.config().limits();
    let mut sights = ArrayVec::new();
    for number in 0..cluster.node_count() {
        let is_out = outages.is_out(number, count);
        sights.push(sight(cluster.node(number), is_out));
    }
    sights
}

/// What is seen of a node, which is to be out or not.
fn sight<D: Disk + Drop>(node: &Node<D>, is_out: bool) -> NodeSight
    ensures { IsSight D.Disk node.now is_out result }
{
    let table = node.table();
    NodeSight {
        runs: node.running(),
        is_out,
        over: table.over(),
        front: node.front(),
        to_act: seat_to_act(table),
        pends: node.pending().is_some(),
    }
}

/// The seat to act; none where no hand runs.
fn seat_to_act(table: &Table) -> Option<u8>
    ensures { result ≡ acting_seat table.now.game table.now.hands }
{
    let hand = table.dealt().checked_sub(1)?;
    let play = table.play(hand)?;
    let players = play.players();
    let position = play.to_act()?;
    Some(((position + hand as usize) % players) as u8)
}

/// How many commands the lowest running node has applied; 0 where none runs.
pub(crate) fn lowest_front<D: Disk + Drop>(cluster: &Cluster<D>) -> u32
    ensures { IsLowestFront D.Disk (view_of cluster.now).nodes result }
{
    cluster.limits();
    for number in 0..cluster.node_count() {
        let node = cluster.node(number);
        if node.running() {
            return node.front();
        }
    }
    0
}
