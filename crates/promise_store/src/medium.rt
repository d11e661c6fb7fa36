//! A file in memory, which keeps a record of its calls; each call is told whether it is to fail.

ghost use Rattle.std.specs.Prelude.{◌≡◌, ◌∷◌, ◌++◌, [], ◌+◌, ◌<◌, ◌≤◌, ◌%◌, ◌/◌, ◌^◌, List, ℕ, length, take, drop, map, ◌↔◌, if◌then◌else◌, IsTrue, IfOk, IsOk, IsErr, OnOk, OnErr, true, false};
ghost use Rattle.promise_store.specs.Disks.{Holds, TornFrom, Within, Only, Elapses, Counts, Picks};
ghost use Rattle.promise_store.specs.Calls.{event_of, events, landed, replayed, picked, write_of, IsTied};

use crate::call::Call;
use crate::disk::{DiskFault, count_failure};
use std::alloc::{AllocError, Global};

/// A file in memory. A write of no bytes does nothing, also behind the end.
pub struct Medium {
    alloc: Global,
    /// What a read gives.
    bytes: Vec<u8>,
    /// What the last stop left; before the first, nothing.
    base: Vec<u8>,
    /// All calls that changed it.
    calls: Vec<Call>,
    /// The first of them since the last stop.
    based: usize,
    /// The first of them since the last sync or stop.
    unsynced: usize,
    /// How many of them there were when it was begun.
    begun: usize,
    failures: u64,
    ghost tied: { IsTied bytes.items base.items based unsynced begun calls.items },
}

/// By hand, so that letting one go is one call for whoever owns it (docs/ARCHITECTURE.md, Habits).
impl Drop for Medium {
    fn drop(self) {
        let Medium {
            alloc: _,
            bytes: _,
            base: _,
            calls: _,
            based: _,
            unsynced: _,
            begun: _,
            failures: _,
        } = self;
    }
}

/// Makes of a write what its digit says: 0 the old bytes, with zeros past the old end; 1 the new bytes; else ones. An
/// `Err` changes no byte.
fn land(file: &mut Vec<u8>, digit: u64, at: usize, bytes: &[u8]) -> Result<(), AllocError>
    ensures landed { OnOk result (file.new.items ≡ landed digit file.old.items at bytes.now) }
    ensures err { OnErr result (file.new.items ≡ file.old.items) }
{
    let end = at.checked_add(bytes.len()).ok_or(AllocError)?;
    if end > file.len() {
        file.resize(end, 0)?;
    }
    match digit {
        0 => {}
        1 => file[at..end].copy_from_slice(bytes),
        _ => file[at..end].fill(1),
    }
    Ok(())
}

/// Writes where that passes. Else it makes room alone, so that a stop can still put the bytes there. An `Err` changes
/// no byte.
fn write(file: &mut Vec<u8>, passes: bool, at: usize, bytes: &[u8]) -> Result<(), AllocError>
    ensures written { OnOk result (file.new.items ≡ (if passes then landed 1 file.old.items at bytes.now else file.old.items)) }
    ensures err { OnErr result (file.new.items ≡ file.old.items) }
{
    if passes {
        return land(file, 1, at, bytes);
    }
    let end = at.checked_add(bytes.len()).ok_or(AllocError)?;
    file.reserve(end.saturating_sub(file.len()))
}

/// Does the writes among these calls again that were done.
fn replay(file: &mut Vec<u8>, calls: &[Call]) -> Result<(), AllocError>
    ensures { OnOk result (file.new.items ≡ replayed file.old.items calls.now) }
{
    for call in calls {
        if let Call::Wrote {
            at,
            bytes,
            done: true,
        } = call
        {
            land(file, 1, *at, bytes)?;
        }
    }
    Ok(())
}

/// What the digits of the pick make of the writes.
fn pick_image(file: &mut Vec<u8>, calls: &[Call], pick: u64) -> Result<(), AllocError>
    ensures { OnOk result (file.new.items ≡ picked file.old.items (map write_of calls.now) pick) }
{
    let mut digits = pick;
    for call in calls {
        match call {
            Call::Wrote { at, bytes, done: _ } => land(file, digits % 3, *at, bytes)?,
            Call::Synced => land(file, digits % 3, 0, &[])?,
            Call::Stopped { pick: _ } => land(file, digits % 3, 0, &[])?,
        }
        digits /= 3;
    }
    Ok(())
}

/// Puts a call behind the last one.
fn note(calls: &mut Vec<Call>, call: Call) -> Result<(), AllocError>
    ensures items { OnOk result (calls.new.items ≡ calls.old.items ++ call ∷ []) }
    ensures events { OnOk result (events calls.new.items ≡ event_of call ∷ events calls.old.items) }
    ensures err { OnErr result (calls.new.items ≡ calls.old.items) }
{
    calls.push(call)?;
    Ok(())
}

impl Medium {
    ghost use Rattle.promise_store.specs.Media.{seen_of, images_of, moment_of, since_of, count_of, begun_of, calls_of, image_of, IsEmpty};

    /// An empty file.
    pub fn new(alloc: Global) -> Medium
        ensures { IsEmpty result }
    {
        Medium {
            alloc,
            bytes: Vec::new(alloc),
            base: Vec::new(alloc),
            calls: Vec::new(alloc),
            based: 0,
            unsynced: 0,
            begun: 0,
            failures: 0,
        }
    }

    /// What a read gives.
    pub fn bytes(&self) -> &[u8]
        ensures value { result.now ≡ seen_of self.now }
        ensures small { length (seen_of self.now) < 2 ^ 63 }
    {
        &self.bytes
    }

    /// All calls that changed it.
    pub fn calls(&self) -> &[Call]
        ensures { result.now ≡ calls_of self.now }
    {
        &self.calls
    }

    /// How many calls have failed; it stays at its last value.
    pub fn failures(&self) -> u64
        ensures { result ≡ count_of self.now }
    {
        self.failures
    }

    /// Begins the file anew: what a read gives now is what it was begun with.
    pub fn begin(&mut self)
        ensures begun { begun_of self.new ≡ seen_of self.old }
        ensures seen { seen_of self.new ≡ seen_of self.old }
        ensures crash { Within (images_of self.old) (images_of self.new) }
        ensures time { Elapses (moment_of self.old) (moment_of self.new) (since_of self.old) (since_of self.new) (images_of self.new) }
        ensures failed { count_of self.new ≡ count_of self.old }
    {
        self.begun = self.calls.len();
    }

    /// How many bytes a read gives. It fails where it isn't to pass.
    pub fn len(&mut self, passes: bool) -> Result<usize, DiskFault>
        ensures len { IfOk result (λ n. n ≡ length (seen_of self.old)) }
        ensures passes { IsOk result ↔ (passes ≡ true) }
        ensures seen { seen_of self.new ≡ seen_of self.old }
        ensures begun { begun_of self.new ≡ begun_of self.old }
        ensures crash { Within (images_of self.old) (images_of self.new) }
        ensures time { Elapses (moment_of self.old) (moment_of self.new) (since_of self.old) (since_of self.new) (images_of self.new) }
        ensures failed { Counts result (count_of self.old) (count_of self.new) }
    {
        if !passes {
            return Err(count_failure(&mut self.failures));
        }
        Ok(self.bytes.len())
    }

    /// Fills the buffer from the offset on. It fails where it isn't to pass, and where bytes past the end are asked for.
    pub fn read(&mut self, passes: bool, at: usize, buffer: &mut [u8]) -> Result<(), DiskFault>
        ensures bytes { OnOk result (buffer.new ≡ take (length buffer.old) (drop at (seen_of self.old))) }
        ensures passes { IsOk result ↔ ((passes ≡ true) × (at + length buffer.old ≤ length (seen_of self.old))) }
        ensures seen { seen_of self.new ≡ seen_of self.old }
        ensures begun { begun_of self.new ≡ begun_of self.old }
        ensures crash { Within (images_of self.old) (images_of self.new) }
        ensures time { Elapses (moment_of self.old) (moment_of self.new) (since_of self.old) (since_of self.new) (images_of self.new) }
        ensures failed { Counts result (count_of self.old) (count_of self.new) }
    {
        let len = self.bytes.len();
        if !passes || at > len || buffer.len() > len - at {
            return Err(count_failure(&mut self.failures));
        }
        buffer.copy_from_slice(&self.bytes[at..at + buffer.len()]);
        Ok(())
    }

    /// Writes over what is there, and past the end. It fails where it isn't to pass, and for want of memory; a read then
    /// gives what it gave before. Where it wasn't to pass, a stop may still put the bytes there.
    pub fn write_at(&mut self, passes: bool, at: usize, bytes: &[u8]) -> Result<(), DiskFault>
        ensures written { at ≤ length (seen_of self.old) → OnOk result (Holds (seen_of self.old) at bytes.now (seen_of self.new)) }
        ensures nothing { length bytes.now ≡ 0 → seen_of self.new ≡ seen_of self.old }
        ensures err { OnErr result (seen_of self.new ≡ seen_of self.old) }
        ensures fails { passes ≡ false → IsErr result }
        ensures begun { begun_of self.new ≡ begun_of self.old }
        ensures crash { Within (TornFrom at (length bytes.now) (images_of self.old)) (images_of self.new) }
        ensures time { Elapses (moment_of self.old) (moment_of self.new) (since_of self.old) (since_of self.new) (images_of self.new) }
        ensures failed { Counts result (count_of self.old) (count_of self.new) }
    {
        if bytes.is_empty() {
            return if passes {
                Ok(())
            } else {
                Err(count_failure(&mut self.failures))
            };
        }
        let Ok(copy) = bytes.to_vec(self.alloc) else {
            return Err(count_failure(&mut self.failures));
        };
        // The room for the call comes first, so that nothing fails behind the write.
        if self.calls.reserve(1).is_err() || write(&mut self.bytes, passes, at, bytes).is_err() {
            return Err(count_failure(&mut self.failures));
        }
        self.calls.push_reserved(Call::Wrote {
            at,
            bytes: copy,
            done: passes,
        });
        if !passes {
            return Err(count_failure(&mut self.failures));
        }
        Ok(())
    }

    /// Has a stop leave what a read gives now. It fails where it isn't to pass, and for want of memory; then all that was
    /// unsynced stays so.
    pub fn sync(&mut self, passes: bool) -> Result<(), DiskFault>
        ensures durable { OnOk result (Only (seen_of self.old) (images_of self.new)) }
        ensures fails { passes ≡ false → IsErr result }
        ensures seen { seen_of self.new ≡ seen_of self.old }
        ensures begun { begun_of self.new ≡ begun_of self.old }
        ensures crash { Within (images_of self.old) (images_of self.new) }
        ensures time { Elapses (moment_of self.old) (moment_of self.new) (since_of self.old) (since_of self.new) (images_of self.new) }
        ensures failed { Counts result (count_of self.old) (count_of self.new) }
    {
        if !passes {
            return Err(count_failure(&mut self.failures));
        }
        if note(&mut self.calls, Call::Synced).is_err() {
            return Err(count_failure(&mut self.failures));
        }
        self.unsynced = self.calls.len();
        Ok(())
    }

    /// The machine stops and comes back with the image that the number picks. Where memory is refused it counts as a
    /// failed call, and nothing else changes.
    pub fn stop(&mut self, pick: u64)
        ensures picked { Picks (image_of self.old pick) (seen_of self.old) (seen_of self.new) (count_of self.old) (count_of self.new) }
        ensures left { images_of self.old (seen_of self.new) }
        ensures begun { begun_of self.new ≡ begun_of self.old }
        ensures crash { Within (images_of self.old) (images_of self.new) }
        ensures time { Elapses (moment_of self.old) (moment_of self.new) (since_of self.old) (since_of self.new) (images_of self.new) }
        ensures counts { count_of self.old ≤ count_of self.new }
    {
        match self.come_back(pick) {
            Ok(()) => {}
            Err(_) => {
                count_failure(&mut self.failures);
            }
        }
    }

    /// The same, without a count. An `Err` changes nothing.
    fn come_back(&mut self, pick: u64) -> Result<(), AllocError>
        ensures picked { OnOk result (seen_of self.new ≡ image_of self.old pick) }
        ensures err { OnErr result (seen_of self.new ≡ seen_of self.old) }
        ensures left { images_of self.old (seen_of self.new) }
        ensures begun { begun_of self.new ≡ begun_of self.old }
        ensures crash { Within (images_of self.old) (images_of self.new) }
        ensures time { Elapses (moment_of self.old) (moment_of self.new) (since_of self.old) (since_of self.new) (images_of self.new) }
        ensures failed { count_of self.new ≡ count_of self.old }
    {
        let mut image = self.base.to_vec(self.alloc)?;
        replay(&mut image, &self.calls[self.based..self.unsynced])?;
        pick_image(&mut image, &self.calls[self.unsynced..], pick)?;
        let copy = image.to_vec(self.alloc)?;
        note(&mut self.calls, Call::Stopped { pick })?;
        self.bytes = image;
        self.base = copy;
        self.based = self.calls.len();
        self.unsynced = self.calls.len();
        Ok(())
    }
}
