//! Whether a node is apart: without a quorum for a while.

ghost use Rattle.std.specs.Prelude.{◌≡◌, ◌⊎◌, ◌<◌, true, false};
ghost use Rattle.node_service.specs.Apartness.{MovesOn, together};

/// Whether a node is apart, and how often it came to be so.
#[derive(Clone, Copy)]
pub(crate) struct Apart {
    is_apart: bool,
    times: u64,
}

impl Apart {
    /// It isn't, and never was.
    pub(crate) fn new() -> Apart
        ensures { result ≡ together }
    {
        Apart {
            is_apart: false,
            times: 0,
        }
    }

    /// Whether it is.
    pub(crate) fn is_apart(&self) -> bool
        ensures { result ≡ self.now.is_apart }
    {
        self.is_apart
    }

    /// It is from now on, or isn't.
    pub(crate) fn set(&mut self, is_apart: bool)
        ensures moves { MovesOn self.old self.new }
        ensures only { self.new.is_apart ≡ true → is_apart ≡ true }
    {
        if !is_apart {
            self.is_apart = false;
            return;
        }
        if self.is_apart {
            return;
        }
        if let Some(times) = self.times.checked_add(1) {
            *self = Apart {
                is_apart: true,
                times,
            };
        }
    }
}
