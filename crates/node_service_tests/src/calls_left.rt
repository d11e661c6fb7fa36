//! How many calls a process still makes.

use std::alloc::{AllocError, Global};
use std::cell::Cell;
use std::rc::Rc;

/// A process that isn't killed.
pub(crate) const ENDLESS: u64 = u64::MAX;

/// How many calls a process still makes before it is killed, of its wires and of its disk together: both count them.
#[derive(Drop)]
pub(crate) struct CallsLeft {
    left: Rc<Cell<u64>>,
}

impl CallsLeft {
    /// So many calls.
    pub(crate) fn new(alloc: Global, calls: u64) -> Result<CallsLeft, AllocError> {
        Ok(CallsLeft {
            left: Rc::new(alloc, Cell::new(calls))?,
        })
    }

    /// The same, for the other of the two.
    pub(crate) fn share(&self) -> Result<CallsLeft, AllocError> {
        Ok(CallsLeft {
            left: self.left.clone()?,
        })
    }

    /// Whether no call is made any more.
    pub(crate) fn is_over(&self) -> bool {
        self.left.get() == 0
    }

    /// Counts a call, and says whether it is made.
    pub(crate) fn spend(&self) -> bool {
        let left = self.left.get();
        self.left.set(left.saturating_sub(1));
        left > 0
    }
}
