//! A file of the operating system. No contract can say what it holds, so it isn't honest, and has no images.

ghost use Rattle.std.specs.Prelude.{◌≡◌, ◌≤◌, [], false, Some, None, option_map};
ghost use Rattle.std.specs.IoError.{error_kind};
ghost use Rattle.promise_store.specs.Disks.{Rose};
ghost use Rattle.promise_store.specs.NoDisk.{none_left, never_honest, never_left};

use crate::disk::{Disk, DiskFault, count_failure};
use std::fs::File;
use std::io;
use std::os::unix::fs::FileExt;

/// A disk that is a file. `stop` does nothing to it.
///
/// No contract says what a file holds: whether it keeps to what `Disk` says is trusted. After a sync that failed, every
/// later one fails too, since the system may have forgotten what it then tells as written.
#[derive(Drop)]
pub struct FileDisk {
    file: File,
    failures: u64,
    /// What the system said of the last call that failed.
    error: Option<io::Error>,
    /// A sync failed.
    unsure: bool,
}

impl FileDisk {
    ghost use Rattle.promise_store.specs.FileDisks.{failures_of, error_of};

    /// The disk of an open file that may be read and written.
    pub fn new(file: File) -> FileDisk
        ensures sound { failures_of result ≡ 0 }
        ensures none { error_of result ≡ None }
    {
        FileDisk {
            file,
            failures: 0,
            error: None,
            unsure: false,
        }
    }

    /// The kind of the error by which the system last refused a call; none where it refused none.
    pub fn last_error(&self) -> Option<io::ErrorKind>
        ensures { result ≡ option_map error_kind (error_of self.now) }
    {
        match self.error {
            Some(error) => Some(error.kind()),
            None => None,
        }
    }

    /// The fault of a call that the system refused, which is counted, and its error kept.
    fn refused(&mut self, error: io::Error) -> DiskFault
        ensures rose { Rose (failures_of self.old) (failures_of self.new) }
        ensures more { failures_of self.old ≤ failures_of self.new }
        ensures kept { error_of self.new ≡ Some error }
    {
        self.error = Some(error);
        count_failure(&mut self.failures)
    }
}

impl Disk for FileDisk {
    ghost is_honest = { false };

    ghost seen = { λ _. [] };

    ghost images = { λ _ _. none_left };

    ghost moment = { λ _. 0 };

    ghost since = { λ _ _ _. none_left };

    ghost count = { λ f. f.failures };

    ghost begun = { λ _. [] };

    ghost picked = { λ _ _. [] };

    ghost counts_now = { λ f t image now. now };

    ghost only_now = { λ f image since. since };

    ghost honest_images = { λ f image now. never_left now };

    ghost is_small = { λ f honest. never_honest honest };

    ghost seen_may_stay = { λ f honest. never_honest honest };

    fn failures(&self) -> u64 {
        self.failures
    }

    fn begin(&mut self) {}

    fn len(&mut self) -> Result<usize, DiskFault> {
        match self.file.metadata() {
            Ok(data) => Ok(data.len() as usize),
            Err(error) => Err(self.refused(error)),
        }
    }

    fn read(&mut self, at: usize, buffer: &mut [u8]) -> Result<(), DiskFault> {
        match self.file.read_exact_at(buffer, at as u64) {
            Ok(()) => Ok(()),
            Err(error) => Err(self.refused(error)),
        }
    }

    fn write_at(&mut self, at: usize, bytes: &[u8]) -> Result<(), DiskFault> {
        match self.file.write_all_at(bytes, at as u64) {
            Ok(()) => Ok(()),
            Err(error) => Err(self.refused(error)),
        }
    }

    fn sync(&mut self) -> Result<(), DiskFault> {
        if self.unsure {
            return Err(count_failure(&mut self.failures));
        }
        match self.file.sync_data() {
            Ok(()) => Ok(()),
            Err(error) => {
                self.unsure = true;
                Err(self.refused(error))
            }
        }
    }

    fn stop(&mut self, _pick: u64) {}
}
