//! How many commands a node applies in a second.

/// A second, in the microseconds of moments.
const SECOND: u64 = 1_000_000;

/// How many commands were applied in the last whole second.
#[derive(Clone, Copy)]
pub(crate) struct Rate {
    /// The second that runs, counted as moments are, and the front when it began.
    second: u64,
    front: u32,
    /// So many were applied in the one before it.
    pub(crate) last: u32,
}

impl Rate {
    /// The process begins, with this front.
    pub(crate) fn new(front: u32, now: u64) -> Rate {
        Rate {
            second: now / SECOND,
            front,
            last: 0,
        }
    }

    /// This is the front at this moment. Where nobody looked for more than a second nothing is known of the last one.
    pub(crate) fn see(&mut self, front: u32, now: u64) {
        let second = now / SECOND;
        if second <= self.second {
            return;
        }
        self.last = if second - self.second == 1 {
            front.saturating_sub(self.front)
        } else {
            0
        };
        self.second = second;
        self.front = front;
    }
}
