//! Files that others than their owner may use, though they have what they may not see.

use crate::notes::Notes;
use std::fs;
use std::fs::Metadata;
use std::os::unix::fs::MetadataExt;

/// Tells the file at this path, if its group or others may read, write or run it. Whether the folders above let them come
/// there isn't looked at.
pub(crate) fn tell_open_file(rt: &HostRuntime, path: &str, notes: &mut Notes<'_>) {
    if let Ok(file) = fs::metadata(rt, path) {
        if is_open(&file) {
            notes.tell_open(path);
        }
    }
}

/// Whether a file's group or others may read, write or run it.
fn is_open(file: &Metadata) -> bool {
    file.is_file() && file.mode() & 0o077 != 0
}
