use std::io;
use std::time::{Duration, Instant};

/// When a wait is over, by the clock of the system that never goes back.
#[derive(Clone, Copy, Drop)]
pub(crate) struct Deadline {
    begun: Instant,
    most: Duration,
}

impl Deadline {
    /// So long from now.
    pub(crate) fn after(rt: &HostRuntime, most: Duration) -> io::Result<Deadline> {
        Ok(Deadline {
            begun: Instant::now(rt)?,
            most,
        })
    }

    /// How long it is till then; zero from then on.
    pub(crate) fn left(&self, rt: &HostRuntime) -> io::Result<Duration> {
        Ok(self.most.saturating_sub(self.begun.elapsed(rt)?))
    }
}
