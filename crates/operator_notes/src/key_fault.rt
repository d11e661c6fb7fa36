//! Why a file isn't that of the key that the processes of a match share.

ghost use Rattle.std.specs.Prelude.{◌≡◌, Some};
ghost use Rattle.operator_notes.specs.KeyFaults.{fault_of, fault_line};

use std::fmt;
use std::fs::Metadata;
use std::os::unix::fs::MetadataExt;

/// The most bytes that a key's file has: 64 digits and a line feed.
pub const MOST_BYTES: u64 = 65;

/// Why a file isn't taken for a key's.
#[derive(Clone, Copy, Debug, PartialEq, Eq)]
pub enum KeyFault {
    /// It is a folder, a device or the like.
    NotAFile,
    /// Its group or others may read, write or run it.
    NotSecret,
    /// It is of another user than the process.
    NotOwned,
    /// It has something else than 64 hexadecimal digits, behind which one line feed may stand.
    NotDigits,
}

impl KeyFault {
    /// Why a file isn't taken, by its kind, its rights and its length, the first of them; none where what it has may be a key.
    pub fn of(file: &Metadata) -> Option<KeyFault>
        ensures { result ≡ fault_of file.now }
    {
        if !file.is_file() {
            return Some(KeyFault::NotAFile);
        }
        if file.mode() & 0o077 != 0 {
            return Some(KeyFault::NotSecret);
        }
        if file.len() > MOST_BYTES {
            return Some(KeyFault::NotDigits);
        }
        None
    }
}

/// Writes it as it stands behind the name of the file.
impl fmt::Display for KeyFault {
    ghost output = { λ fault. Some (fault_line fault) };

    fn fmt<W: fmt::Write>(&self, f: &mut fmt::Formatter<W>) -> fmt::Result {
        f.write_str(match self {
            KeyFault::NotAFile => ": not a regular file",
            KeyFault::NotSecret => ": open to others than its owner",
            KeyFault::NotOwned => ": of another user",
            KeyFault::NotDigits => ": not 64 hexadecimal digits",
        })
    }
}
