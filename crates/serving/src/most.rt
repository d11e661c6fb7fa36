//! How much a turn shows at most.

ghost use Rattle.std.specs.Prelude.{◌≡◌, max};
ghost use Rattle.std.specs.Option.{option_map};
ghost use Rattle.dealer_world.specs.Viewing.{view_of};
ghost use Rattle.serving.specs.Most.{CoversEach, CoversSome, CoversTurn, frame_by, frame_of_turn};

use crate::progress::Progress;
use crate::waiting::Waiting;
use dealer_node::MostShown;
use dealer_world::{Cluster, Frame};
use paxos_wire::MessageRoom;
use promise_store::Disk;

/// The greater of two in each.
fn greater(one: MostShown, other: MostShown) -> MostShown
    ensures pieces { result.pieces ≡ max one.pieces other.pieces }
    ensures bytes { result.bytes ≡ max one.bytes other.bytes }
{
    MostShown {
        pieces: one.pieces.max(other.pieces),
        bytes: one.bytes.max(other.bytes),
    }
}

/// How much the next call of a node that brings it no frame shows at most, whichever it is of.
fn most_without_frame<D: Disk + Drop>(cluster: &Cluster<D>) -> MostShown
    ensures { CoversEach (view_of cluster.now) result }
{
    let mut most = MostShown {
        pieces: 0,
        bytes: 0,
    };
    for number in 0..cluster.node_count() {
        most = greater(most, cluster.most_shown(number));
    }
    most
}

/// How much a call shows at most that brings this frame to its node, or brings none, whichever node it is of. The frame is
/// read into the room.
fn most_shown<D: Disk + Drop>(
    cluster: &Cluster<D>,
    frame: Option<Frame<'_>>,
    room: &mut MessageRoom,
) -> MostShown
    ensures each { CoversEach (view_of cluster.now) result }
    ensures frame { CoversSome (view_of cluster.now) (option_map (λ frame. frame_by frame.from frame.to frame.bytes.now) frame.entry) result }
{
    let most = most_without_frame(cluster);
    match frame {
        Some(frame) if (frame.to as usize) < cluster.node_count() => {
            let number = frame.to as usize;
            greater(most, cluster.most_shown_by(number, frame.bytes, room))
        }
        _ => most,
    }
}

/// The frame that the next turn may bring to a node.
fn frame_of_turn<'a, D: Disk + Drop>(
    cluster: &'a Cluster<D>,
    progress: &Progress,
    waiting: &'a Option<Waiting>,
) -> Option<Frame<'a>>
    ensures { option_map (λ frame. frame_by frame.from frame.to frame.bytes.now) result ≡ frame_of_turn (view_of cluster.now) progress.now waiting.now }
{
    match waiting {
        Some(waiting) => waiting.frame(),
        None => progress.frame(cluster),
    }
}

/// How much the next turn shows at most. What its frame says is read into the room.
pub(crate) fn most_of_turn<D: Disk + Drop>(
    cluster: &Cluster<D>,
    progress: &Progress,
    waiting: &Option<Waiting>,
    room: &mut MessageRoom,
) -> MostShown
    ensures { CoversTurn (view_of cluster.now) progress.now waiting.now result }
{
    most_shown(cluster, frame_of_turn(cluster, progress, waiting), room)
}
