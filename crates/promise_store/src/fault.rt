ghost use Rattle.std.specs.Prelude.{◌≡◌, Some};
ghost use Rattle.promise_store.specs.FaultText.{code_of, fault_text};
ghost use Rattle.promise_store.specs.declared.fault.StoreFault.TheVariants.{OutOfMemory};

use std::alloc::AllocError;
use std::fmt;
use thiserror::Error;

/// Why a store can't be used, or a call of it wasn't carried out.
///
/// It prints as its number and its name.
#[derive(Clone, Copy, Debug, PartialEq, Eq, Error)]
pub enum StoreFault {
    /// 60: the file is empty, so no store was created on it.
    NoStore,
    /// 61: the file doesn't begin with the header of this node and count of nodes, of either version, and a gate.
    BadHeader,
    /// 62: an open gate stands before what is no record that may stand there, with a gate behind it.
    BadRecord,
    /// 63: a call of the disk failed. Whether what the call was to store is stored is known only to who opens the
    /// store again.
    Disk,
    /// 64: a call of the disk failed before, and the store wasn't opened again since.
    Closed,
    /// 92: a growth was refused. Nothing has changed.
    OutOfMemory,
}

impl StoreFault {
    /// The fault's number.
    pub fn code(self) -> u8
        ensures { result ≡ code_of self }
    {
        match self {
            StoreFault::NoStore => 60,
            StoreFault::BadHeader => 61,
            StoreFault::BadRecord => 62,
            StoreFault::Disk => 63,
            StoreFault::Closed => 64,
            StoreFault::OutOfMemory => 92,
        }
    }
}

impl From<AllocError> for StoreFault {
    ghost from_gives = { λ _ fault. fault ≡ OutOfMemory };

    fn from(_: AllocError) -> Self {
        StoreFault::OutOfMemory
    }
}

impl fmt::Display for StoreFault {
    ghost output = { λ fault. Some (fault_text fault) };

    fn fmt<W: fmt::Write>(&self, f: &mut fmt::Formatter<W>) -> fmt::Result {
        match self {
            StoreFault::NoStore => f.write_str("60 NoStore"),
            StoreFault::BadHeader => f.write_str("61 BadHeader"),
            StoreFault::BadRecord => f.write_str("62 BadRecord"),
            StoreFault::Disk => f.write_str("63 Disk"),
            StoreFault::Closed => f.write_str("64 Closed"),
            StoreFault::OutOfMemory => f.write_str("92 OutOfMemory"),
        }
    }
}
