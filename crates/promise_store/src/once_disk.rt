//! A disk in memory, one call of which fails.

ghost use Rattle.std.specs.Prelude.{◌≡◌, ◌≤◌, ◌-◌, true, refl, length, Some, None};
ghost use Rattle.std.proofs.Common.{inl, rules};
ghost use Rattle.promise_store.specs.Calls.{events, only_images};
ghost use Rattle.promise_store.specs.Media.{passes_with, burnt_once};

use crate::disk::{Disk, DiskFault};
use crate::medium::Medium;
use std::alloc::Global;

/// A disk in memory, of whose calls one alone fails. A failed write leaves its range unsynced: a crash may leave any
/// bytes there, and a read gives the old ones.
#[derive(Drop)]
pub struct OnceDisk {
    medium: Medium,
    /// How many calls pass before the one that fails; none once it has.
    left: Option<u64>,
}

/// Whether one call more passes.
fn passes(left: &mut Option<u64>) -> bool
    ensures passes { result ≡ passes_with left.old }
    ensures burnt { left.new ≡ burnt_once left.old }
{
    match *left {
        None => true,
        Some(0) => {
            *left = None;
            false
        }
        Some(count) => {
            *left = Some(count - 1);
            true
        }
    }
}

impl OnceDisk {
    ghost use Rattle.promise_store.specs.OnceDisks.{medium_of, left_of};
    ghost use Rattle.promise_store.specs.Media.{seen_of, IsEmpty};

    /// An empty file, whose call of this number fails, counted from 1; with 0 none does.
    pub fn new(alloc: Global, call: u64) -> OnceDisk
        ensures empty { IsEmpty (medium_of result) }
        ensures none { call ≡ 0 → left_of result ≡ None }
        ensures once { 1 ≤ call → left_of result ≡ Some (call - 1) }
    {
        OnceDisk {
            medium: Medium::new(alloc),
            left: call.checked_sub(1),
        }
    }

    /// What a read gives: what the medium has, which is private.
    pub fn bytes(&self) -> &[u8]
        ensures { result.now ≡ seen_of (medium_of self.now) }
    {
        self.medium.bytes()
    }
}

impl Disk for OnceDisk {
    ghost use Rattle.promise_store.specs.Media.{seen_of, images_of, moment_of, since_of, count_of, begun_of, image_of};

    ghost is_honest = { true };

    ghost seen = { λ m. seen_of m.medium };

    ghost images = { λ m. images_of m.medium };

    ghost moment = { λ m. moment_of m.medium };

    ghost since = { λ m. since_of m.medium };

    ghost count = { λ m. count_of m.medium };

    ghost begun = { λ m. begun_of m.medium };

    ghost picked = { λ m. image_of m.medium };

    ghost counts_now = { λ m t image now. inl now };

    ghost only_now = { λ m image since. only_images (events m.medium.calls.items) image since };

    ghost honest_images = { λ m image now. refl };

    ghost is_small = { λ m honest. Prim.search (rules, m.medium.tied.is_seen) };

    ghost seen_may_stay = { λ m honest. inl refl };

    fn failures(&self) -> u64 {
        self.medium.failures()
    }

    fn begin(&mut self) {
        self.medium.begin();
    }

    fn len(&mut self) -> Result<usize, DiskFault> {
        let passes = passes(&mut self.left);
        self.medium.len(passes)
    }

    fn read(&mut self, at: usize, buffer: &mut [u8]) -> Result<(), DiskFault> {
        let passes = passes(&mut self.left);
        self.medium.read(passes, at, buffer)
    }

    fn write_at(&mut self, at: usize, bytes: &[u8]) -> Result<(), DiskFault> {
        let passes = passes(&mut self.left);
        self.medium.write_at(passes, at, bytes)
    }

    fn sync(&mut self) -> Result<(), DiskFault> {
        let passes = passes(&mut self.left);
        self.medium.sync(passes)
    }

    fn stop(&mut self, pick: u64) {
        self.medium.stop(pick);
    }
}
