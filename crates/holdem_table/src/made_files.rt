//! Small files that are made whole: their text is on the disk before they have their name.

use std::alloc::{AllocError, Global};
use std::fs::{File, FileTimes, OpenOptions, Permissions};
use std::io::Write;
use std::os::unix::fs::{FileExt, OpenOptionsExt, PermissionsExt};
use std::{fs, io};

/// Who may read a file that is made, besides its owner, who may write it too. The user's mask of rights has no say in it.
#[derive(Clone, Copy)]
pub(crate) enum Readers {
    /// Nobody: it has cards, seeds or secrets.
    Owner,
    /// The owner's group.
    Group,
    /// Everybody.
    All,
}

impl Readers {
    /// The file's mode.
    fn mode(self) -> u32 {
        match self {
            Readers::Owner => 0o600,
            Readers::Group => 0o640,
            Readers::All => 0o644,
        }
    }

    /// Opens a file by options that make it, so that nobody else can read it at any moment.
    pub(crate) fn open(
        self,
        rt: &HostRuntime,
        options: &mut OpenOptions,
        path: &str,
    ) -> io::Result<File> {
        let file = options.mode(self.mode()).open(rt, path)?;
        self.give(&file);
        Ok(file)
    }

    /// Gives the rights to a file that was there, or that the user's mask left with fewer. A file system that has no such
    /// rights leaves it as it was; `serve` and `node` tell it where others may read it.
    fn give(self, file: &File) {
        let _ = file.set_permissions(Permissions::from_mode(self.mode()));
    }
}

/// Makes a file with this text, which must not be there, and has it on the disk.
pub(crate) fn make(rt: &HostRuntime, path: &str, text: &[u8], readers: Readers) -> io::Result<()> {
    let mut options = File::options();
    options.write(true).create_new(true);
    let mut file = readers.open(rt, &mut options, path)?;
    file.write_all(text)?;
    file.sync_all()
}

/// Makes a file with this text in this folder, in place of one that is there, and has it and its name on the disk. At any
/// moment there is the one or the other, or none where there was none.
pub(crate) fn put(
    rt: &HostRuntime,
    folder: &str,
    path: &str,
    text: &[u8],
    readers: Readers,
) -> io::Result<()> {
    put_of(rt, folder, path, text, readers, FileTimes::new())
}

/// The same; the file has these times, if any are set.
fn put_of(
    rt: &HostRuntime,
    folder: &str,
    path: &str,
    text: &[u8],
    readers: Readers,
    times: FileTimes,
) -> io::Result<()> {
    let new = beside(rt.alloc(), path)?;
    let mut options = File::options();
    options.write(true).create(true).truncate(true);
    let mut file = readers.open(rt, &mut options, new.as_str())?;
    file.write_all(text)?;
    file.set_times(times)?;
    file.sync_all()?;
    fs::rename(rt, new.as_str(), path)?;
    sync(rt, folder)
}

/// Makes a file of the owner anew, as `put` does, in place of one that is there. It keeps the time of that, so that it still
/// tells when the file was made.
pub(crate) fn put_again(rt: &HostRuntime, folder: &str, path: &str, text: &[u8]) -> io::Result<()> {
    let times = FileTimes::new().set_modified(fs::metadata(rt, path)?.modified()?);
    put_of(rt, folder, path, text, Readers::Owner, times)
}

/// Writes a text over what a file has behind this many bytes, by one write where the system takes it whole. It may not be on the
/// disk then. The file keeps its time, so that it still tells when it was made.
pub(crate) fn write_over(rt: &HostRuntime, path: &str, text: &[u8], offset: u64) -> io::Result<()> {
    let file = File::options().write(true).open(rt, path)?;
    let made = file.metadata()?.modified()?;
    file.write_all_at(text, offset)?;
    file.set_modified(made)
}

/// Where a file is written until it has its name.
fn beside(alloc: Global, path: &str) -> Result<String, AllocError> {
    let new = format!(in alloc; "{path}.new")?;
    Ok(new)
}

/// Has the names of a folder's files on the disk.
pub(crate) fn sync(rt: &HostRuntime, folder: &str) -> io::Result<()> {
    File::open(rt, folder)?.sync_all()
}
