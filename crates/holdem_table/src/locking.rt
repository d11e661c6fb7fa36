use crate::notes::Notes;
use std::fs::{File, TryLockError};
use std::os::unix::fs::MetadataExt;
use std::{fs, io};

/// How a file's lock is taken.
#[derive(Clone, Copy)]
pub(crate) enum Lock {
    /// Against other processes, until the file is closed.
    Held,
    /// To see whether another process has one: it is given back at once.
    Tried,
}

/// A file that was opened at this path, and its lock taken so. Where another process holds a lock on it, or has put another
/// file in its place meanwhile, the error is that the lock would have to be waited for. Where the system gives no locks, a
/// note says so, and the file is taken without one.
pub(crate) fn locked(
    rt: &HostRuntime,
    opened: io::Result<File>,
    path: &str,
    lock: Lock,
    notes: &mut Notes<'_>,
) -> io::Result<File> {
    let file = opened?;
    if !has_lock(rt, &file, path, lock)? {
        notes.tell_unlocked(path);
    }
    Ok(file)
}

/// The same, but none where the system gives no locks: a note says so, and the file is closed.
pub(crate) fn surely_locked(
    rt: &HostRuntime,
    opened: io::Result<File>,
    path: &str,
    lock: Lock,
    notes: &mut Notes<'_>,
) -> io::Result<Option<File>> {
    let file = opened?;
    if has_lock(rt, &file, path, lock)? {
        return Ok(Some(file));
    }
    notes.tell_unlocked(path);
    Ok(None)
}

/// Whether another process holds a lock on a file that was opened at this path, or has put another one in its place.
pub(crate) fn is_in_use(rt: &HostRuntime, file: &File, path: &str) -> bool {
    match has_lock(rt, file, path, Lock::Tried) {
        Err(error) => error.kind() == io::ErrorKind::WouldBlock,
        Ok(_) => false,
    }
}

/// Whether the system gave a lock of a file that was opened at this path.
fn has_lock(rt: &HostRuntime, file: &File, path: &str, lock: Lock) -> io::Result<bool> {
    let is_given = match try_lock(file, lock) {
        Ok(()) => true,
        Err(TryLockError::WouldBlock) => return Err(io::Error::from(io::ErrorKind::WouldBlock)),
        Err(TryLockError::Error(_)) => false,
    };
    if leads_to(rt, path, file)? {
        Ok(is_given)
    } else {
        Err(io::Error::from(io::ErrorKind::WouldBlock))
    }
}

/// Takes the lock of a file.
fn try_lock(file: &File, lock: Lock) -> Result<(), TryLockError> {
    match lock {
        Lock::Held => file.try_lock(),
        Lock::Tried => {
            file.try_lock_shared()?;
            match file.unlock() {
                Ok(()) => Ok(()),
                Err(error) => Err(TryLockError::Error(error)),
            }
        }
    }
}

/// Whether a path leads to this file.
fn leads_to(rt: &HostRuntime, path: &str, file: &File) -> io::Result<bool> {
    let (there, here) = (fs::metadata(rt, path)?, file.metadata()?);
    Ok(there.dev() == here.dev() && there.ino() == here.ino())
}
