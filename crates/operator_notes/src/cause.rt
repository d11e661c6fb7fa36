ghost use Rattle.std.specs.Prelude.{◌≡◌};
ghost use Rattle.operator_notes.specs.Causes.{cause_of, cause_text};

use std::io::ErrorKind;

/// Why the system refused a file or an address, as the notes say it.
#[derive(Clone, Copy, Debug, PartialEq, Eq)]
pub enum Cause {
    /// The address is taken, or another process holds a lock on the file.
    InUse,
    /// The address is none of this machine.
    NotHere,
    /// There is no such file or folder.
    NotFound,
    /// There is no such folder, in which a file was to be made.
    NoFolder,
    /// This user may not have it.
    NoPermission,
    /// The disk is full, or this user's share of it.
    NoRoom,
    /// A file stands there where none may be.
    ThereAlready,
    /// What stands there is no folder.
    NotAFolder,
    /// Another reason.
    Failed,
    /// The reason isn't known: nothing is said of it.
    Unknown,
}

impl Cause {
    /// What the system's kind of error says. A lock that another process holds is told as an operation that would wait.
    pub fn of(kind: ErrorKind) -> Cause
        ensures { result ≡ cause_of kind }
    {
        match kind {
            ErrorKind::AddrInUse | ErrorKind::WouldBlock => Cause::InUse,
            ErrorKind::AddrNotAvailable => Cause::NotHere,
            ErrorKind::NotFound => Cause::NotFound,
            ErrorKind::PermissionDenied => Cause::NoPermission,
            ErrorKind::StorageFull | ErrorKind::QuotaExceeded => Cause::NoRoom,
            ErrorKind::AlreadyExists => Cause::ThereAlready,
            ErrorKind::NotADirectory => Cause::NotAFolder,
            _ => Cause::Failed,
        }
    }

    /// What stands behind a file or an address.
    pub(crate) fn text(self) -> &'static str
        ensures { result.now ≡ cause_text self }
    {
        match self {
            Cause::InUse => ": in use",
            Cause::NotHere => ": not an address of this machine",
            Cause::NotFound => ": not found",
            Cause::NoFolder => ": no such folder",
            Cause::NoPermission => ": no permission",
            Cause::NoRoom => ": no room",
            Cause::ThereAlready => ": there already",
            Cause::NotAFolder => ": not a folder",
            Cause::Failed => ": failed",
            Cause::Unknown => "",
        }
    }
}
