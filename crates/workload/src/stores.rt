ghost use Rattle.std.specs.Prelude.{◌<◌, ◌≤◌};

use betting::Action;
use paxos_wire::{Ballot, slot_bytes, write_ballot, write_command};
use promise_store::{FileDisk, Store};
use slot_log::Command;
use std::alloc::{AllocError, Global};
use std::fs::File;
use std::rt::Files;
use std::{fs, io};

/// The file that the tasks of the store work on, in the folder where the program runs.
const PATH: &str = "workload.journal";

/// How many promises are stored for timing.
const APPENDS: u32 = 2000;

/// A file as a disk, made anew or as it is; where it is to be as it is, it has to be there.
pub fn open<R: Files<File = File>>(rt: &R, path: &str, is_new: bool) -> io::Result<FileDisk> {
    let mut options = File::options();
    let options = options.read(true).write(true);
    let file = options.create(is_new).truncate(is_new).open(rt, path)?;
    Ok(FileDisk::new(file))
}

/// Makes a store on the file, appends so many promises, and prints how many were stored.
pub fn print_appended<R: Print + AllocGlobal + Files<File = File>>(
    rt: &R,
    count: u32,
) -> io::Result<()> {
    let disk = open(rt, PATH, true)?;
    let stored = appended(rt.alloc(), disk, count);
    println!(rt; "appends: {stored} stored")
}

/// How many of so many promises were stored by a store that was made on this disk.
fn appended(alloc: Global, disk: FileDisk, count: u32) -> u32 {
    match Store::create(alloc, disk, 0, 3) {
        Ok(mut store) => promises(&mut store, count),
        Err(_) => 0,
    }
}

/// How many promises of rising rounds were stored.
fn promises(store: &mut Store<FileDisk>, count: u32) -> u32 {
    let mut stored = 0u32;
    for round in 0..count {
        let ballot = Ballot {
            round: round.saturating_add(1),
            node: 0,
        };
        if store.promise(ballot).is_ok() {
            stored = stored.saturating_add(1);
        }
    }
    stored
}

/// The same for timing.
pub fn print_many_appended<R: Print + AllocGlobal + Files<File = File>>(rt: &R) -> io::Result<()> {
    print_appended(rt, APPENDS)
}

/// Writes a journal of accepts at so many slots, and prints how long it is.
pub fn print_written<R: Print + AllocGlobal + Files<File = File>>(
    rt: &R,
    slots: u32,
) -> io::Result<()>
    requires { slots ≤ 1000000 }
{
    let length = written(rt, slots)?;
    println!(rt; "journal: {slots} records, {length} bytes")
}

/// How long the journal is that was written.
fn written<R: AllocGlobal + Files<File = File>>(rt: &R, slots: u32) -> io::Result<usize>
    requires { slots ≤ 1000000 }
{
    let bytes = journal(rt.alloc(), slots)?;
    fs::write(rt, PATH, bytes.as_slice())?;
    Ok(bytes.len())
}

/// The journal of node 0 of 3 with an accept of a call at each of so many slots.
fn journal(alloc: Global, slots: u32) -> Result<Vec<u8>, AllocError>
    requires { slots ≤ 1000000 }
{
    let mut bytes = Vec::new(alloc);
    bytes.extend_from_slice(&[b'H', b'D', b'J', b'1', 0, 3, 0, 0])?;
    let ballot = Ballot { round: 1, node: 0 };
    let command = Command::Act {
        hand: 0,
        index: 0,
        action: Action::Call,
    };
    for slot in 0..slots {
        bytes.extend_from_slice(&[1, 0, 22, 2])?;
        write_ballot(&mut bytes, ballot)?;
        bytes.extend_from_slice(&slot_bytes(slot))?;
        write_command(&mut bytes, &command)?;
    }
    bytes.extend_from_slice(&[0])?;
    Ok(bytes)
}

/// Opens the store on the file, and prints whether the last slot's entry stands in it.
pub fn print_opened<R: Print + AllocGlobal + Files<File = File>>(
    rt: &R,
    slots: u32,
) -> io::Result<()> {
    let disk = open(rt, PATH, false)?;
    let has_last = has_entry(rt.alloc(), disk, slots.saturating_sub(1));
    println!(rt; "opened: the last of {slots} is there: {has_last}")
}

/// Whether the store on a disk has an entry for a slot.
fn has_entry(alloc: Global, disk: FileDisk, slot: u32) -> bool {
    match Store::open(alloc, disk, 0, 3) {
        Ok(store) => store.held().find(slot).is_some(),
        Err(_) => false,
    }
}
