//! How a start of a node would be answered by its store, without one.

ghost use Rattle.std.specs.Prelude.{◌≡◌, ℕ, List, Result as Answer, false, IsTrue};
ghost use Rattle.promise_store.specs.Journals.{header};
ghost use Rattle.promise_store.specs.Settled.{OnlyReads};
ghost use Rattle.dealer_node.specs.Seeing.{bytes_of, member_in, runs};
ghost use Rattle.dealer_node.specs.Working.{head_of};
ghost use Rattle.dealer_node.specs.declared.fault.NodeFault.{NodeFault as Fault};
ghost use Rattle.node_runs.specs.Looks.{IsAnswerTo, AreOne};

use dealer_node::{Node, NodeFault, Out};
use promise_store::{Disk, Store, StoreFault};
use std::alloc::Global;

/// Looks at the store of this node of so many that a disk has, and answers as its start would; the disk is handed back.
///
/// It syncs, and then reads each record: it writes nothing. Over an honest disk it is answered as a start over the same bytes
/// is (`answers_are_one`, `answers_its_start`), unless the disk fails (91 with 63) or memory is refused (92) at one of them.
pub fn look_at_store<D: Disk>(
    alloc: Global,
    disk: D,
    node: u8,
    nodes: u8,
) -> (D, Result<(), NodeFault>)
    ensures reads { OnlyReads D.Disk disk result.0 }
    ensures answer { IsTrue D.is_honest → IsAnswerTo (header node nodes) (D.seen disk) result.1 }
{
    match Store::look(alloc, disk, node, nodes) {
        Ok(disk) => (disk, Ok(())),
        Err((disk, StoreFault::OutOfMemory)) => (disk, Err(NodeFault::OutOfMemory)),
        Err((disk, fault)) => (disk, Err(NodeFault::Store(fault))),
    }
}

/// All answers to who would start a node over the same bytes are one, but for those of a failed disk and of want of memory.
pub fn answers_are_one()
    ensures same { (head bytes : List ℕ) (one other : Answer (Unit {0}) Fault) → IsAnswerTo head bytes one → IsAnswerTo head bytes other → AreOne one other }
{}

/// Starts a node that is down; over an honest disk it is answered as a look at what the disk has.
pub fn answers_its_start<D: Disk + Drop>(node: &mut Node<D>, out: &mut Out) -> Result<(), NodeFault>
    requires down { runs node.old ≡ false }
    ensures answer { IsTrue D.is_honest → IsAnswerTo (head_of (member_in node.old)) (bytes_of D.Disk node.old) result }
{
    node.start(out)
}
