//! One file as a store sees it: what a read gives, and what a crash may leave.

ghost use Rattle.std.specs.Prelude.{◌≡◌, ◌⊎◌, ◌+◌, ◌^◌, ◌<◌, ◌≤◌, ℕ, Bool, List, length, take, drop, IsTrue, IfOk, OnOk};
ghost use Rattle.promise_store.specs.Disks.{Holds, Torn, TornFrom, Within, Only, Elapses, Counts, Rose, Picks};

/// A call of a disk failed. What a failed write left in its range is known only after a sync.
#[derive(Clone, Copy, Debug, PartialEq, Eq)]
pub struct DiskFault;

/// The fault of a call, which is counted.
pub(crate) fn count_failure(failures: &mut u64) -> DiskFault
    ensures rose { Rose failures.old failures.new }
    ensures more { failures.old ≤ failures.new }
{
    *failures = failures.saturating_add(1);
    DiskFault
}

/// One file. Any call may fail, and a crash may come between any two calls and inside each.
///
/// Between two syncs each written range, and what lies past the old end, may after a crash hold any bytes; the others
/// stay. After a sync that succeeds a crash leaves what a read gives. What is said of bytes and of crashes is said of
/// disks that keep to this; whether a disk's type does is the type's `is_honest`.
pub trait Disk {
    /// Whether disks of this type give what was written and keep what was synced.
    ghost is_honest: { Bool };

    /// What a read gives.
    ghost seen: { Self → List ℕ };

    /// The images: what a crash at this moment may leave.
    ghost images: { Self → List ℕ → Type 0 };

    /// A number of the moment, which never falls.
    ghost moment: { Self → ℕ };

    /// The images at some moment from that one on.
    ghost since: { Self → ℕ → List ℕ → Type 0 };

    /// How many calls have failed.
    ghost count: { Self → ℕ };

    /// What a read gave when the disk was begun: made, or begun anew.
    ghost begun: { Self → List ℕ };

    /// What a stop leaves by the number that picks.
    ghost picked: { Self → ℕ → List ℕ };

    /// How many calls have failed; it stays at its last value.
    fn failures(&self) -> u64
        ensures { result ≡ count self.now };

    /// Begins the disk anew, as a cluster does that is opened over stores which another one left. It isn't a call
    /// of the file: it can't fail, and nothing but `begun` changes.
    fn begin(&mut self)
        ensures begun { begun self.new ≡ seen self.old }
        ensures seen { seen self.new ≡ seen self.old }
        ensures crash { Within (images self.old) (images self.new) }
        ensures time { Elapses (moment self.old) (moment self.new) (since self.old) (since self.new) (images self.new) }
        ensures failed { count self.new ≡ count self.old };

    /// How many bytes a read gives.
    fn len(&mut self) -> Result<usize, DiskFault>
        ensures len { IsTrue is_honest → IfOk result (λ n. n ≡ length (seen self.old)) }
        ensures seen { seen self.new ≡ seen self.old }
        ensures begun { begun self.new ≡ begun self.old }
        ensures crash { Within (images self.old) (images self.new) }
        ensures time { Elapses (moment self.old) (moment self.new) (since self.old) (since self.new) (images self.new) }
        ensures failed { Counts result (count self.old) (count self.new) };

    /// Fills the buffer from the offset on. Bytes past the end aren't read: that fails.
    fn read(&mut self, at: usize, buffer: &mut [u8]) -> Result<(), DiskFault>
        ensures bytes { IsTrue is_honest → OnOk result (buffer.new ≡ take (length buffer.old) (drop at (seen self.old))) }
        ensures seen { seen self.new ≡ seen self.old }
        ensures begun { begun self.new ≡ begun self.old }
        ensures crash { Within (images self.old) (images self.new) }
        ensures time { Elapses (moment self.old) (moment self.new) (since self.old) (since self.new) (images self.new) }
        ensures failed { Counts result (count self.old) (count self.new) };

    /// Writes over what is there, and past the end. Until a sync succeeds a crash may leave any bytes in the range,
    /// also where the write failed.
    fn write_at(&mut self, at: usize, bytes: &[u8]) -> Result<(), DiskFault>
        ensures written { IsTrue is_honest → at ≤ length (seen self.old) → OnOk result (Holds (seen self.old) at bytes.now (seen self.new)) }
        ensures begun { begun self.new ≡ begun self.old }
        ensures crash { Within (TornFrom at (length bytes.now) (images self.old)) (images self.new) }
        ensures time { Elapses (moment self.old) (moment self.new) (since self.old) (since self.new) (images self.new) }
        ensures failed { Counts result (count self.old) (count self.new) };

    /// Has on the disk what a read gives: after Ok a crash leaves that alone.
    fn sync(&mut self) -> Result<(), DiskFault>
        ensures durable { OnOk result (Only (seen self.old) (images self.new)) }
        ensures seen { seen self.new ≡ seen self.old }
        ensures begun { begun self.new ≡ begun self.old }
        ensures crash { Within (images self.old) (images self.new) }
        ensures time { Elapses (moment self.old) (moment self.new) (since self.old) (since self.new) (images self.new) }
        ensures failed { Counts result (count self.old) (count self.new) };

    /// The machine stops and comes back: what a read gives from now on is one of the images, the one that the number
    /// picks. Where that can't be had it counts as a failed call, and a read gives what it gave before. Of a real file
    /// it isn't ours to pick, and nothing happens.
    fn stop(&mut self, pick: u64)
        ensures picked { IsTrue is_honest → Picks (picked self.old pick) (seen self.old) (seen self.new) (count self.old) (count self.new) }
        ensures left { IsTrue is_honest → images self.old (seen self.new) }
        ensures begun { begun self.new ≡ begun self.old }
        ensures crash { Within (images self.old) (images self.new) }
        ensures time { Elapses (moment self.old) (moment self.new) (since self.old) (since self.new) (images self.new) }
        ensures counts { count self.old ≤ count self.new };

    /// An image now is one at some moment since any.
    ghost counts_now: { (file : Self) (t : ℕ) (image : List ℕ) → images file image → since file t image };

    /// Since this moment there is no other.
    ghost only_now: { (file : Self) (image : List ℕ) → since file (moment file) image → images file image };

    /// Only of an honest disk is it said what a crash leaves.
    ghost honest_images: { (file : Self) (image : List ℕ) → images file image → IsTrue is_honest };

    /// No file is so long that a place in it is no number of the machine.
    ghost is_small: { (file : Self) → IsTrue is_honest → length (seen file) < 2 ^ 63 };

    /// What a read gives may stay.
    ghost seen_may_stay: { (file : Self) → IsTrue is_honest → images file (seen file) };
}
