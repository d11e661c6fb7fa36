//! When what lay there as a process woke counts as read, also where some seat sends without end.

ghost use Rattle.std.specs.Prelude.{◌≡◌};
ghost use Rattle.node_service.specs.Unread.{nothing_read, slept_in, read_in, may_be_read};

use crate::limits::LOOKS;
use clockwork::limits::LEAP;

/// In how many turns since the process slept, or began, all that peers told was taken, and of each seat what came next; counted up to
/// `LOOKS`.
#[derive(Clone, Copy)]
pub(crate) struct Unread {
    turns: u8,
}

impl Unread {
    /// The process begins.
    pub(crate) fn new() -> Unread
        ensures { result ≡ nothing_read }
    {
        Unread { turns: 0 }
    }

    /// So much time went by beyond what it asked to wait and its own calls took: it slept where that is long.
    pub(crate) fn pass(&mut self, lost: u64)
        ensures { self.new ≡ slept_in self.old lost }
    {
        if lost > LEAP {
            self.turns = 0;
        }
    }

    /// A turn ended, which is one more of these, or isn't.
    pub(crate) fn read(&mut self, is_read: bool)
        ensures { self.new ≡ read_in is_read self.old }
    {
        if is_read && self.turns < LOOKS {
            self.turns += 1;
        }
    }

    /// Whether what came in the sleep may count as read, where nothing is left of seats, or something is: then they are so many that it
    /// was read.
    pub(crate) fn may_be_read(&self, is_all: bool) -> bool
        ensures { result ≡ may_be_read is_all self.now }
    {
        is_all || self.turns >= LOOKS
    }
}
