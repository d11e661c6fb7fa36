ghost use Rattle.std.specs.Prelude.{◌<◌};

use crate::journal::next;
use crate::samples::{assert_bytes, assert_same, holds};
use promise_store::{Disk, DiskFault, FileDisk, MemoryDisk, OnceDisk};
use std::fs;
use std::fs::File;
use std::process::Abort;
use std::rt::Files;
use std::test::Fail;

/// So many calls of an empty disk pass.
fn pass<D: Disk>(rt: &impl Abort, disk: &mut D, calls: u32) {
    for _ in 0..calls {
        assert_same(rt, disk.len(), Ok(0));
    }
}

/// Six calls of the disk fail.
fn fail<D: Disk>(rt: &impl Abort, disk: &mut D) {
    for _ in 0..3u32 {
        assert_same(rt, disk.len(), Err(DiskFault));
        assert_same(rt, disk.sync(), Err(DiskFault));
    }
}

/// So many calls pass, and all behind them fail until the disk stops.
fn pass_and_stop<D: Disk>(rt: &impl Abort, disk: &mut D, calls: u32) {
    pass(rt, disk, calls);
    fail(rt, disk);
    disk.stop(0);
}

/// Two calls pass, after a stop one, and after another stop all.
#[test]
fn each_stop_takes_the_next_fuse(rt: HostRuntime) -> Result<(), Fail> {
    let mut disk = MemoryDisk::new(rt.alloc(), &[2, 1])?;
    pass_and_stop(&rt, &mut disk, 2);
    pass_and_stop(&rt, &mut disk, 1);
    pass(&rt, &mut disk, 9);
    assert_same(&rt, disk.failures(), 12);
    let once = OnceDisk::new(rt.alloc(), 0);
    holds!(&rt; once.bytes().is_empty());
    Ok(())
}

/// A new file at the path, to read and to write.
fn new_file<R: Files<File = File>>(rt: &R, path: &str) -> Result<File, Fail> {
    let file = File::options()
        .read(true)
        .write(true)
        .create(true)
        .truncate(true)
        .open(rt, path)?;
    Ok(file)
}

/// The file has these bytes.
fn file_has<R: Abort + AllocGlobal + Files<File = File>>(
    rt: &R,
    path: &str,
    bytes: &[u8],
) -> Result<(), Fail> {
    assert_bytes(rt, fs::read(rt, path)?.as_slice(), bytes);
    Ok(())
}

/// The same write on both disks answers the same.
fn writes_agree<F: Disk, M: Disk>(
    rt: &impl Abort,
    on_file: &mut F,
    in_memory: &mut M,
    at: usize,
    bytes: &[u8],
) {
    assert_same(
        rt,
        on_file.write_at(at, bytes),
        in_memory.write_at(at, bytes),
    );
}

/// The same read on both disks answers the same, and where it succeeds has the same bytes.
fn reads_agree<F: Disk, M: Disk>(
    rt: &impl Abort,
    on_file: &mut F,
    in_memory: &mut M,
    at: usize,
    mut bytes: [u8; 40],
    count: usize,
)
    requires { count < 40 }
{
    let mut other = bytes;
    let read = on_file.read(at, &mut bytes[..count]);
    assert_same(rt, read, in_memory.read(at, &mut other[..count]));
    if read.is_ok() {
        assert_bytes(rt, &bytes, &other);
    }
}

/// Both disks tell the same length.
fn lengths_agree<F: Disk, M: Disk>(rt: &impl Abort, on_file: &mut F, in_memory: &mut M) {
    assert_same(rt, on_file.len(), in_memory.len());
}

/// A sync of both disks answers the same.
fn syncs_agree<F: Disk, M: Disk>(rt: &impl Abort, on_file: &mut F, in_memory: &mut M) {
    assert_same(rt, on_file.sync(), in_memory.sync());
}

/// Next bytes of the generator.
fn next_bytes(seed: &mut u64) -> [u8; 40] {
    let mut bytes = [0u8; 40];
    for byte in bytes.iter_mut() {
        *byte = (next(seed) % 256) as u8;
    }
    bytes
}

/// The generator's next call, on both disks, answers the same.
fn calls_agree<F: Disk, M: Disk>(
    rt: &impl Abort,
    on_file: &mut F,
    in_memory: &mut M,
    seed: &mut u64,
) {
    let kind = next(seed) % 4;
    let at = next(seed) as usize % 300;
    let count = next(seed) as usize % 40;
    let bytes = next_bytes(seed);
    match kind {
        0 => writes_agree(rt, on_file, in_memory, at, &bytes[..count]),
        1 => reads_agree(rt, on_file, in_memory, at, bytes, count),
        2 => lengths_agree(rt, on_file, in_memory),
        _ => syncs_agree(rt, on_file, in_memory),
    }
}

/// A write of no bytes past the end, and 400 calls of the generator, on both disks.
fn disks_agree<F: Disk, M: Disk>(rt: &impl Abort, on_file: &mut F, in_memory: &mut M) {
    writes_agree(rt, on_file, in_memory, 400, &[]);
    lengths_agree(rt, on_file, in_memory);
    let mut seed = 11;
    for _ in 0..400u32 {
        calls_agree(rt, on_file, in_memory, &mut seed);
    }
    assert_same(rt, on_file.failures(), in_memory.failures());
}

/// A disk in memory answers as a new file at the path, and has the same bytes then.
fn agrees_with_file<R: Abort + AllocGlobal + Files<File = File>>(
    rt: &R,
    path: &str,
) -> Result<(), Fail> {
    let mut on_file = FileDisk::new(new_file(rt, path)?);
    let mut in_memory = MemoryDisk::new(rt.alloc(), &[])?;
    disks_agree(rt, &mut on_file, &mut in_memory);
    file_has(rt, path, in_memory.bytes())
}

/// No contract says what a file does: the same calls on a file and in memory answer the same and leave the same bytes.
#[test]
fn a_file_answers_as_memory_does(rt: HostRuntime) -> Result<(), Fail> {
    let path = "calls.journal";
    agrees_with_file(&rt, path)?;
    fs::remove_file(&rt, path)?;
    Ok(())
}
