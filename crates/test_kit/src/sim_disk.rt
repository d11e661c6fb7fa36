//! The disk of a process: what was synced, and what a crash may leave of the rest.

ghost use Rattle.std.specs.Prelude.{◌≡◌, ◌≤◌, [], false};
ghost use Rattle.promise_store.specs.Disks.{Rose};
ghost use Rattle.promise_store.specs.NoDisk.{none_left, never_honest, never_left};

use crate::clock::Clock;
use promise_store::{Disk, DiskFault};
use std::alloc::{AllocError, Global};

/// A call of a disk that did something, or that failed.
#[derive(Drop)]
pub enum DiskCall {
    Wrote {
        moment: u64,
        at: usize,
        bytes: Vec<u8>,
    },
    Synced {
        begun: u64,
        moment: u64,
    },
    Failed {
        moment: u64,
    },
}

/// A disk over the clock of its process. As of a file of the system, no clause says what it holds: whoever reads the trace
/// judges.
///
/// What was written since the last sync is kept apart, and a crash leaves of it what a number picks. After a sync that failed
/// each later one fails too.
#[derive(Drop)]
pub struct SimDisk<'a> {
    alloc: Global,
    clock: &'a Clock,
    /// What a read gives.
    bytes: Vec<u8>,
    /// What was synced.
    synced: Vec<u8>,
    calls: Vec<DiskCall>,
    /// The first call since the last sync.
    unsynced: usize,
    failures: u64,
    /// A sync failed.
    is_unsure: bool,
    /// Memory was refused for what is kept here.
    has_lost: bool,
}

/// The fault of a call, which is counted.
fn count_failure(failures: &mut u64) -> DiskFault
    ensures rose { Rose failures.old failures.new }
    ensures more { failures.old ≤ failures.new }
{
    *failures = failures.saturating_add(1);
    DiskFault
}

/// Puts bytes into a file, behind zeros where it isn't so long.
fn put_at(file: &mut Vec<u8>, at: usize, bytes: &[u8]) -> Result<(), AllocError> {
    let end = at.checked_add(bytes.len()).ok_or(AllocError)?;
    if end > file.len() {
        file.resize(end, 0)?;
    }
    file[at..end].copy_from_slice(bytes);
    Ok(())
}

/// Puts of a write what its digit says: 0 nothing but its length, 1 all, 2 the first half.
fn land(file: &mut Vec<u8>, digit: u64, at: usize, bytes: &[u8]) -> Result<(), AllocError> {
    let end = at.checked_add(bytes.len()).ok_or(AllocError)?;
    if end > file.len() {
        file.resize(end, 0)?;
    }
    match digit {
        0 => Ok(()),
        1 => put_at(file, at, bytes),
        _ => put_at(file, at, &bytes[..bytes.len() / 2]),
    }
}

impl<'a> SimDisk<'a> {
    /// A disk that has these bytes, all synced.
    pub fn new(alloc: Global, clock: &'a Clock, bytes: &[u8]) -> Result<SimDisk<'a>, AllocError> {
        Ok(SimDisk {
            alloc,
            clock,
            bytes: Vec::from_slice(alloc, bytes)?,
            synced: Vec::from_slice(alloc, bytes)?,
            calls: Vec::new(alloc),
            unsynced: 0,
            failures: 0,
            is_unsure: false,
            has_lost: false,
        })
    }

    /// All calls so far.
    pub fn calls(&self) -> &[DiskCall] {
        &self.calls
    }

    /// Whether memory was refused for what is kept here: then it can't be told what the file has.
    pub fn has_lost(&self) -> bool {
        self.has_lost
    }

    /// What a read gives.
    pub fn bytes(&self) -> &[u8] {
        &self.bytes
    }

    /// What a crash leaves by a number: of each unsynced write what a digit in base 3 says, the oldest the lowest.
    pub fn image(&self, alloc: Global, pick: u64) -> Result<Vec<u8>, AllocError> {
        let mut file = Vec::from_slice(alloc, &self.synced)?;
        let mut digits = pick;
        for call in self.calls.iter().skip(self.unsynced) {
            if let DiskCall::Wrote {
                moment: _,
                at,
                bytes,
            } = call
            {
                land(&mut file, digits % 3, *at, bytes)?;
                digits /= 3;
            }
        }
        Ok(file)
    }

    /// Whether a call doesn't pass: the process is dead, or the call is the one that fails.
    fn is_stopped(&mut self) -> bool
        ensures { self.new.failures ≡ self.old.failures }
    {
        if self.clock.is_dead() {
            return true;
        }
        if !self.clock.is_failing() {
            return false;
        }
        let moment = self.clock.now();
        if self.calls.push(DiskCall::Failed { moment }).is_err() {
            self.has_lost = true;
        }
        true
    }

    /// Writes, as far as the process lives. False where the call failed.
    fn put(&mut self, at: usize, bytes: &[u8]) -> Result<bool, AllocError>
        ensures { self.new.failures ≡ self.old.failures }
    {
        if self.is_stopped() {
            return Ok(false);
        }
        let moment = self.clock.now();
        let lives = self.clock.spend(2);
        let kept = Vec::from_slice(self.alloc, bytes)?;
        self.calls.push(DiskCall::Wrote {
            moment,
            at,
            bytes: kept,
        })?;
        put_at(&mut self.bytes, at, bytes)?;
        Ok(lives)
    }

    /// Has what was written since the last sync with the rest.
    fn settle(&mut self) -> Result<(), AllocError>
        ensures { self.new.failures ≡ self.old.failures }
    {
        for call in self.calls.iter().skip(self.unsynced) {
            if let DiskCall::Wrote {
                moment: _,
                at,
                bytes,
            } = call
            {
                put_at(&mut self.synced, *at, bytes)?;
            }
        }
        self.unsynced = self.calls.len();
        Ok(())
    }

    /// Syncs, as far as the process lives. False where the call failed.
    fn flush(&mut self) -> Result<bool, AllocError>
        ensures { self.new.failures ≡ self.old.failures }
    {
        if self.is_stopped() || self.is_unsure {
            self.is_unsure = true;
            return Ok(false);
        }
        let begun = self.clock.now();
        if !self.clock.spend(self.clock.sync()) {
            return Ok(false);
        }
        let moment = self.clock.now();
        self.settle()?;
        self.calls.push(DiskCall::Synced { begun, moment })?;
        self.unsynced = self.calls.len();
        Ok(true)
    }
}

impl Disk for SimDisk<'_> {
    ghost is_honest = { false };

    ghost seen = { λ _. [] };

    ghost images = { λ _ _. none_left };

    ghost moment = { λ _. 0 };

    ghost since = { λ _ _ _. none_left };

    ghost count = { λ f. f.failures };

    ghost begun = { λ _. [] };

    ghost picked = { λ _ _. [] };

    ghost counts_now = { λ f t image now. now };

    ghost only_now = { λ f image since. since };

    ghost honest_images = { λ f image now. never_left now };

    ghost is_small = { λ f honest. never_honest honest };

    ghost seen_may_stay = { λ f honest. never_honest honest };

    fn failures(&self) -> u64 {
        self.failures
    }

    fn begin(&mut self) {}

    fn len(&mut self) -> Result<usize, DiskFault> {
        if self.is_stopped() {
            return Err(count_failure(&mut self.failures));
        }
        Ok(self.bytes.len())
    }

    fn read(&mut self, at: usize, buffer: &mut [u8]) -> Result<(), DiskFault> {
        if self.is_stopped() {
            return Err(count_failure(&mut self.failures));
        }
        let len = self.bytes.len();
        if at > len || buffer.len() > len - at {
            return Err(count_failure(&mut self.failures));
        }
        buffer.copy_from_slice(&self.bytes[at..at + buffer.len()]);
        Ok(())
    }

    fn write_at(&mut self, at: usize, bytes: &[u8]) -> Result<(), DiskFault> {
        match self.put(at, bytes) {
            Ok(true) => return Ok(()),
            Ok(false) => {}
            Err(_) => self.has_lost = true,
        }
        Err(count_failure(&mut self.failures))
    }

    fn sync(&mut self) -> Result<(), DiskFault> {
        match self.flush() {
            Ok(true) => return Ok(()),
            Ok(false) => {}
            Err(_) => self.has_lost = true,
        }
        Err(count_failure(&mut self.failures))
    }

    fn stop(&mut self, _pick: u64) {}
}
