//! The four calls of an append.

ghost use Rattle.std.specs.Prelude.{◌≡◌, ◌+◌, ◌≤◌, ℕ, List, length, IsTrue, OnOk};
ghost use Rattle.promise_store.specs.declared.records.Record.{Record};
ghost use Rattle.promise_store.specs.declared.stage.Stage.{Stage};
ghost use Rattle.promise_store.specs.Disks.{Holds, TornFrom, Within, Only, During, Counts};
ghost use Rattle.promise_store.specs.Settled.{IsAddition, IsWritten};

use crate::disk::{Disk, DiskFault};

/// Writes, and has it on the disk.
pub fn write_through<D: Disk>(disk: &mut D, at: usize, bytes: &[u8]) -> Result<(), DiskFault>
    ensures written { IsTrue D.is_honest → at ≤ length (D.seen disk.old) → OnOk result (Holds (D.seen disk.old) at bytes.now (D.seen disk.new)) }
    ensures durable { OnOk result (Only (D.seen disk.new) (D.images disk.new)) }
    ensures begun { D.begun disk.new ≡ D.begun disk.old }
    ensures crash { Within (TornFrom at (length bytes.now) (D.images disk.old)) (D.images disk.new) }
    ensures time { During (D.since disk.old) (D.since disk.new) (TornFrom at (length bytes.now) (D.images disk.old)) }
    ensures failed { Counts result (D.count disk.old) (D.count disk.new) }
{
    disk.write_at(at, bytes)?;
    disk.sync()
}

/// Writes a record and a shut gate behind the gate, and then opens that.
///
/// The text is the record's, and the byte 0 of the gate behind it. Where the gate isn't open, what stands behind it is
/// no record, so until the last call the journal is the one before; and from then on the record is whole, also where it
/// is one of 64 commands: one gate stands before all of it.
pub fn write_record<D: Disk>(disk: &mut D, gate: usize, text: &[u8]) -> Result<(), DiskFault>
    ensures written { (first last next : Stage) (head : List ℕ) (records : List Record) (r : Record) → IsAddition D.Disk first last next head records r gate text.now disk.old
        → IsWritten D.Disk first next head records r (gate + length text.now) disk.old disk.new result }
    ensures begun { D.begun disk.new ≡ D.begun disk.old }
    ensures failed { Counts result (D.count disk.old) (D.count disk.new) }
{
    let behind = gate.saturating_add(1);
    write_through(disk, behind, text)?;
    write_through(disk, gate, &[1])
}
