//! A disk in memory, with fuses.

ghost use Rattle.std.specs.Prelude.{◌≡◌, true, refl, length, IfOk};
ghost use Rattle.std.proofs.Common.{inl, rules};
ghost use Rattle.promise_store.specs.Calls.{events, only_images};
ghost use Rattle.promise_store.specs.Media.{passes_with, burnt};

use crate::call::Call;
use crate::disk::{Disk, DiskFault};
use crate::medium::Medium;
use std::alloc::{AllocError, Global};

/// A disk in memory, whose calls fail when its fuse is burnt. It keeps a record of its calls.
///
/// A crash may leave any bytes in what was written since the last sync; `stop` picks one of these images: the writes
/// since then, failed ones too, take the digits of the pick in base 3, the oldest the lowest. Digit 0 keeps the old
/// bytes, with zeros past the old end; 1 has the new bytes; 2 has the byte 1 throughout. What a failed sync left
/// unsynced stays so until one succeeds. A write of no bytes does nothing, and takes no digit. A growth that is refused
/// inside is a failure of the call, also of a stop, which then changes no byte.
pub struct MemoryDisk {
    medium: Medium,
    /// How many calls pass before all fail.
    left: Option<u64>,
    /// The same after each stop to come.
    fuses: Vec<u64>,
    next_fuse: usize,
}

/// By hand, so that letting one go is one call for whoever owns it (docs/ARCHITECTURE.md, Habits).
impl Drop for MemoryDisk {
    fn drop(self) {
        let MemoryDisk {
            medium: _,
            left: _,
            fuses: _,
            next_fuse: _,
        } = self;
    }
}

/// Whether one call more passes.
fn passes(left: &mut Option<u64>) -> bool
    ensures passes { result ≡ passes_with left.old }
    ensures burnt { left.new ≡ burnt left.old }
{
    match *left {
        None => true,
        Some(0) => false,
        Some(count) => {
            *left = Some(count - 1);
            true
        }
    }
}

impl MemoryDisk {
    ghost use Rattle.promise_store.specs.MemoryDisks.{medium_of, fuses_of};
    ghost use Rattle.promise_store.specs.Media.{seen_of, calls_of, IsEmpty};

    /// An empty file. The first number says how many calls pass before all fail until `stop`, and each stop takes the
    /// next; without one nothing fails.
    pub fn new(alloc: Global, fuses: &[u64]) -> Result<MemoryDisk, AllocError>
        ensures empty { IfOk result (λ disk. IsEmpty (medium_of disk)) }
        ensures fuses { IfOk result (λ disk. fuses_of disk ≡ fuses.now) }
    {
        Ok(MemoryDisk {
            medium: Medium::new(alloc),
            left: fuses.first().copied(),
            fuses: fuses.to_vec(alloc)?,
            next_fuse: fuses.len().min(1),
        })
    }

    /// What a read gives: what the medium has, which is private.
    pub fn bytes(&self) -> &[u8]
        ensures { result.now ≡ seen_of (medium_of self.now) }
    {
        self.medium.bytes()
    }

    /// All calls that changed the file, or what a crash may leave of it: those that the medium noted.
    pub fn calls(&self) -> &[Call]
        ensures { result.now ≡ calls_of (medium_of self.now) }
    {
        self.medium.calls()
    }
}

impl Disk for MemoryDisk {
    ghost use Rattle.promise_store.specs.Media.{seen_of, images_of, moment_of, since_of, count_of, begun_of, image_of};

    ghost is_honest = { true };

    ghost seen = { λ m. seen_of m.medium };

    ghost images = { λ m. images_of m.medium };

    ghost moment = { λ m. moment_of m.medium };

    ghost since = { λ m. since_of m.medium };

    ghost count = { λ m. count_of m.medium };

    ghost begun = { λ m. begun_of m.medium };

    ghost picked = { λ m. image_of m.medium };

    ghost counts_now = { λ m t image now. inl now };

    ghost only_now = { λ m image since. only_images (events m.medium.calls.items) image since };

    ghost honest_images = { λ m image now. refl };

    ghost is_small = { λ m honest. Prim.search (rules, m.medium.tied.is_seen) };

    ghost seen_may_stay = { λ m honest. inl refl };

    fn failures(&self) -> u64 {
        self.medium.failures()
    }

    fn begin(&mut self) {
        self.medium.begin();
    }

    fn len(&mut self) -> Result<usize, DiskFault> {
        let passes = passes(&mut self.left);
        self.medium.len(passes)
    }

    fn read(&mut self, at: usize, buffer: &mut [u8]) -> Result<(), DiskFault> {
        let passes = passes(&mut self.left);
        self.medium.read(passes, at, buffer)
    }

    fn write_at(&mut self, at: usize, bytes: &[u8]) -> Result<(), DiskFault> {
        let passes = passes(&mut self.left);
        self.medium.write_at(passes, at, bytes)
    }

    fn sync(&mut self) -> Result<(), DiskFault> {
        let passes = passes(&mut self.left);
        self.medium.sync(passes)
    }

    fn stop(&mut self, pick: u64) {
        self.left = self.fuses.get(self.next_fuse).copied();
        if self.left.is_some() {
            self.next_fuse += 1;
        }
        self.medium.stop(pick);
    }
}
