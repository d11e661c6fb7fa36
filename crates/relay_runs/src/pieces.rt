//! Pieces that come over a line or are written to it.

ghost use Rattle.relay_runs.specs.Said.{Reads, Writes};

use crate::limits::PIECE;
use crate::line_reader::is_beginning;
use byte_queue::ByteQueue;
use node_wires::{Halt, Line, Wire};

/// Why nothing was read.
#[derive(Clone, Copy, Debug, PartialEq, Eq)]
pub(crate) enum Unread {
    /// Nothing is there.
    Later,
    /// The connection ended.
    Ended,
    /// Memory was refused.
    OutOfMemory,
}

/// Reads the next piece that came over a line, behind what came before; nothing while a whole line of that waits.
#[tactic(auto, using(crate::proofs::Writing::nothing_read, crate::proofs::Writing::read_in_vain, crate::proofs::Writing::some_read))]
pub(crate) fn read_into<W: Wire>(
    came: &mut ByteQueue,
    wire: &mut W,
    line: Line,
) -> Result<(), Unread>
    ensures { Reads line came.old.waiting came.new.waiting (W.passed wire.old) (W.passed wire.new) }
{
    if !is_beginning(came.waiting()) {
        return Err(Unread::Later);
    }
    if came.reserve(PIECE).is_err() {
        return Err(Unread::OutOfMemory);
    }
    let mut piece = [0; PIECE];
    match wire.read(line, &mut piece) {
        Ok(count) => {
            came.push_reserved(&piece[..count]);
            Ok(())
        }
        Err(Halt::Later) => Err(Unread::Later),
        Err(Halt::Ended) => Err(Unread::Ended),
    }
}

/// Where nothing was written the connection goes on, and no more is to be written now.
fn unless_written(count: usize) -> Option<bool> {
    if count == 0 { Some(true) } else { None }
}

/// Writes what there is room for of what waits for a line. `None` where more may be written; else whether the connection
/// goes on.
#[tactic(auto, using(crate::proofs::Writing::nothing_written, crate::proofs::Writing::written_in_vain, crate::proofs::Writing::some_written))]
pub(crate) fn write_some<W: Wire>(waiting: &mut ByteQueue, wire: &mut W, line: Line) -> Option<bool>
    ensures { Writes line waiting.old.waiting waiting.new.waiting (W.passed wire.old) (W.passed wire.new) }
{
    let bytes = waiting.waiting();
    if bytes.is_empty() {
        return Some(true);
    }
    match wire.write(line, bytes) {
        Ok(count) => {
            waiting.skip(count);
            unless_written(count)
        }
        Err(Halt::Later) => Some(true),
        Err(Halt::Ended) => Some(false),
    }
}
