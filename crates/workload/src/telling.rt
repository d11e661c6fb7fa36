//! What nodes sent, showed and refused, as lines of text.

use dealer_node::Out;
use dealer_world::Cluster;
use play_script::put_frame;
use playing::{put_pieces, put_seat_faults};
use promise_store::Disk;
use std::alloc::AllocError;

/// Puts all frames of the record from this number on.
pub fn put_frames_from<D: Disk + Drop>(
    out: &mut Vec<u8>,
    cluster: &Cluster<D>,
    first: usize,
) -> Result<(), AllocError> {
    for number in first..cluster.frame_count() {
        if let Some(frame) = cluster.frame(number) {
            let from = usize::from(frame.from);
            let to = usize::from(frame.to);
            put_frame(out, number as u64, from, to, frame.bytes)?;
        }
    }
    Ok(())
}

/// Puts what a node's call showed, and then what was wrong with what seats sent.
pub fn put_event(out: &mut Vec<u8>, node: u8, made: &Out) -> Result<(), AllocError> {
    put_pieces(out, usize::from(node), made.shown())?;
    put_seat_faults(out, usize::from(node), made.faults())
}
