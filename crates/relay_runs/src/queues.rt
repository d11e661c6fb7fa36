//! The queues of a relay's nodes.

ghost use Rattle.std.specs.Prelude.{◌≡◌, ◌+◌, ◌≤◌, ◌++◌, length, IfOk};
ghost use Rattle.relay_runs.specs.Said.{ended, AreEmpty};
ghost use Rattle.relay_runs.specs.Own.{IsNoneDialled};

use byte_queue::ByteQueue;
use std::alloc::{AllocError, Global};

/// So many queues with nothing in them.
#[tactic(auto, using(crate::proofs::Waiting::none_empty, crate::proofs::Waiting::more_empty))]
pub(crate) fn empty_queues(alloc: Global, count: usize) -> Result<Vec<ByteQueue>, AllocError>
    ensures { IfOk result (λ queues. AreEmpty queues.items) }
{
    let mut queues = Vec::with_capacity(alloc, count)?;
    for _ in 0..count {
        queues.push(ByteQueue::new(alloc))?;
    }
    Ok(queues)
}

/// Of so many nodes that none is dialled.
#[tactic(auto, using(crate::proofs::Owning::none_dialled, crate::proofs::Owning::one_more))]
pub(crate) fn none_dialled(alloc: Global, count: usize) -> Result<Vec<bool>, AllocError>
    ensures { IfOk result (λ dialled. IsNoneDialled dialled.items) }
{
    let mut dialled = Vec::with_capacity(alloc, count)?;
    for _ in 0..count {
        dialled.push(false)?;
    }
    Ok(dialled)
}

/// Puts a line with CR LF behind what waits, for which there is room.
pub(crate) fn put_line(waiting: &mut ByteQueue, line: &[u8])
    requires { length line.now + 2 ≤ waiting.old.room }
    ensures { waiting.new.waiting ≡ waiting.old.waiting ++ ended line.now }
{
    waiting.push_reserved(line);
    waiting.push_reserved(b"\r\n");
}
