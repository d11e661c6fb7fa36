ghost use Rattle.std.specs.Prelude.{◌≡◌};

/// The front of this node, as it is told, and when it moved last, in whole microseconds.
#[derive(Clone, Copy)]
pub(crate) struct OwnFront {
    pub(crate) front: u32,
    pub(crate) moved: u64,
}

impl OwnFront {
    /// Nothing was told.
    pub(crate) fn new() -> OwnFront {
        OwnFront { front: 0, moved: 0 }
    }

    /// The front is this now.
    pub(crate) fn see(&mut self, front: u32, now: u64)
        ensures { self.new.front ≡ front }
    {
        if self.front != front {
            self.moved = now;
        }
        self.front = front;
    }
}
