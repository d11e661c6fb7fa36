//! A disk that is cut: from some moment on each call of it fails, and does nothing.

ghost use Rattle.std.specs.Prelude.{◌≡◌, ◌≤◌};
ghost use Rattle.promise_store.specs.Disks.{Rose};

use crate::calls_left::CallsLeft;
use promise_store::{Disk, DiskFault};

/// A disk of which no call is made any more once the process has made its last: each fails, and leaves all as it is.
///
/// A process that is killed at that moment leaves the same file as one whose disk is cut there, and that goes on to the end of
/// its turn. Nothing is known of the disk but its contract, and the cut one meets it too: it is as honest as that, and a crash
/// may leave just what it may leave there.
#[derive(Drop)]
pub(crate) struct CutDisk<D: Disk + Drop> {
    disk: D,
    calls: CallsLeft,
    failures: u64,
}

/// The fault of a call, which is counted.
fn count_failure(failures: &mut u64) -> DiskFault
    ensures rose { Rose failures.old failures.new }
    ensures more { failures.old ≤ failures.new }
{
    *failures = failures.saturating_add(1);
    DiskFault
}

impl<D: Disk + Drop> CutDisk<D> {
    /// This disk, which is cut behind so many calls.
    pub(crate) fn new(disk: D, calls: CallsLeft) -> CutDisk<D> {
        CutDisk {
            disk,
            calls,
            failures: 0,
        }
    }

    /// The disk itself.
    pub(crate) fn whole(&self) -> &D {
        &self.disk
    }
}

impl<D: Disk + Drop> Disk for CutDisk<D> {
    ghost is_honest = { D.is_honest };

    ghost seen = { λ cut. D.seen cut.disk };

    ghost images = { λ cut. D.images cut.disk };

    ghost moment = { λ cut. D.moment cut.disk };

    ghost since = { λ cut. D.since cut.disk };

    ghost count = { λ cut. cut.failures };

    ghost begun = { λ cut. D.begun cut.disk };

    ghost picked = { λ cut. D.picked cut.disk };

    ghost counts_now = { λ cut t image now. D.counts_now cut.disk t image now };

    ghost only_now = { λ cut image since. D.only_now cut.disk image since };

    ghost honest_images = { λ cut image now. D.honest_images cut.disk image now };

    ghost is_small = { λ cut honest. D.is_small cut.disk honest };

    ghost seen_may_stay = { λ cut honest. D.seen_may_stay cut.disk honest };

    fn failures(&self) -> u64 {
        self.failures
    }

    fn begin(&mut self) {
        self.disk.begin();
    }

    fn len(&mut self) -> Result<usize, DiskFault> {
        if !self.calls.spend() {
            return Err(count_failure(&mut self.failures));
        }
        match self.disk.len() {
            Ok(len) => Ok(len),
            Err(_) => Err(count_failure(&mut self.failures)),
        }
    }

    fn read(&mut self, at: usize, buffer: &mut [u8]) -> Result<(), DiskFault> {
        if !self.calls.spend() {
            return Err(count_failure(&mut self.failures));
        }
        match self.disk.read(at, buffer) {
            Ok(()) => Ok(()),
            Err(_) => Err(count_failure(&mut self.failures)),
        }
    }

    fn write_at(&mut self, at: usize, bytes: &[u8]) -> Result<(), DiskFault> {
        if !self.calls.spend() {
            return Err(count_failure(&mut self.failures));
        }
        match self.disk.write_at(at, bytes) {
            Ok(()) => Ok(()),
            Err(_) => Err(count_failure(&mut self.failures)),
        }
    }

    fn sync(&mut self) -> Result<(), DiskFault> {
        if !self.calls.spend() {
            return Err(count_failure(&mut self.failures));
        }
        match self.disk.sync() {
            Ok(()) => Ok(()),
            Err(_) => Err(count_failure(&mut self.failures)),
        }
    }

    /// Nobody stops it so: that counts as a call that failed.
    fn stop(&mut self, _pick: u64) {
        let _ = count_failure(&mut self.failures);
    }
}
