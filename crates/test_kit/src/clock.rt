//! The clock of one process, and how long the calls of its disk take.

use std::cell::Cell;

/// The clock of a process, which its disk and its wires share: each call moves it on by the time that it takes. At the moment
/// of its death it stands still, and no call does anything any more.
#[derive(Drop)]
pub struct Clock {
    now: Cell<u64>,
    /// When the process dies.
    end: Cell<u64>,
    /// How long a sync takes.
    sync: Cell<u64>,
    /// How long a call of wires takes.
    call: Cell<u64>,
    /// How many calls of the disk pass before one fails; the greatest number where none does.
    left: Cell<u64>,
}

impl Clock {
    /// A clock at moment 0, of a process that doesn't die.
    pub fn new() -> Clock {
        Clock {
            now: Cell::new(0),
            end: Cell::new(u64::MAX),
            sync: Cell::new(100),
            call: Cell::new(1),
            left: Cell::new(u64::MAX),
        }
    }

    /// The present moment.
    pub fn now(&self) -> u64 {
        self.now.get()
    }

    /// It is this moment, and the process dies at that one.
    pub fn set(&self, now: u64, end: u64) {
        self.now.set(now);
        self.end.set(end);
    }

    /// A sync takes so long from now on.
    pub fn set_sync(&self, sync: u64) {
        self.sync.set(sync);
    }

    /// How long a sync takes.
    pub fn sync(&self) -> u64 {
        self.sync.get()
    }

    /// A call of wires takes so long from now on.
    pub fn set_call(&self, call: u64) {
        self.call.set(call);
    }

    /// So many calls of the disk pass before one fails.
    pub fn set_left(&self, left: u64) {
        self.left.set(left);
    }

    /// Counts a call of the disk, and says whether it is the one that fails.
    pub fn is_failing(&self) -> bool {
        let left = self.left.get();
        if left == u64::MAX {
            return false;
        }
        self.left.set(left.checked_sub(1).unwrap_or(u64::MAX));
        left == 0
    }

    /// Whether the process has died.
    pub fn is_dead(&self) -> bool {
        self.now.get() >= self.end.get()
    }

    /// The time of a call of wires goes by. It says whether the process lives on.
    pub fn spend_call(&self) -> bool {
        self.spend(self.call.get())
    }

    /// So much time goes by. It says whether the process lives on.
    pub fn spend(&self, time: u64) -> bool {
        let then = self.now.get().saturating_add(time).min(self.end.get());
        self.now.set(then);
        !self.is_dead()
    }
}
