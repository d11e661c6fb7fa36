//! What is counted of the matches that nodes play.

use paxos_wire::limits::NODES;

/// How many nodes a match has at most.
const MOST: usize = NODES as usize;

/// What was counted over all matches.
#[derive(Clone, Copy)]
pub struct Counts {
    /// How many commands each node knew at the end of its match; 0 where there is no such node.
    pub commands: [u64; MOST],
    /// How many frames were delivered, and how many bytes they had.
    pub frames: u64,
    pub bytes: u64,
    /// A sum over all bytes of frames, in their order.
    pub sum: u64,
    /// How many calls of nodes were refused.
    pub refused: u64,
}

impl Counts {
    /// Nothing yet.
    pub fn none() -> Counts {
        Counts {
            commands: [0; MOST],
            frames: 0,
            bytes: 0,
            sum: 0,
            refused: 0,
        }
    }

    /// Counts a frame of these bytes that was delivered.
    pub fn count_frame(&mut self, bytes: &[u8]) {
        self.frames = self.frames.wrapping_add(1);
        self.bytes = self.bytes.wrapping_add(bytes.len() as u64);
        self.sum = summed(self.sum, bytes);
    }

    /// Counts whether a call of a node was refused.
    pub fn count_call(&mut self, is_refused: bool) {
        if is_refused {
            self.refused = self.refused.wrapping_add(1);
        }
    }
}

/// A sum of bytes in their order, behind that of earlier ones.
fn summed(sum: u64, bytes: &[u8]) -> u64 {
    let mut sum = sum;
    for byte in bytes {
        sum = sum.wrapping_mul(31).wrapping_add(u64::from(*byte));
    }
    sum
}
