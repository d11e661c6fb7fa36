use std::alloc::AllocError;
use std::io::ErrorKind;

/// Why the ports of a match can't be had.
#[derive(Clone, Copy, Debug, PartialEq, Eq)]
pub enum PortFault {
    /// This port can't be bound, or a node can't be reached there, by an error of this kind.
    Port { port: u16, kind: ErrorKind },
    /// Memory was refused.
    OutOfMemory,
}

impl PortFault {
    /// The fault of a port that an error of this kind makes.
    pub(crate) fn of(port: u16, kind: ErrorKind) -> PortFault {
        match kind {
            ErrorKind::OutOfMemory => PortFault::OutOfMemory,
            _ => PortFault::Port { port, kind },
        }
    }
}

impl From<AllocError> for PortFault {
    fn from(_: AllocError) -> PortFault {
        PortFault::OutOfMemory
    }
}

/// What a failed call of a link was about, and the kind of the system's error.
#[derive(Clone, Copy, Debug, PartialEq, Eq)]
pub enum Failed {
    /// This port can't be bound, or the connection to it failed.
    Port { port: u16, kind: ErrorKind },
    /// The log of this node, counted from 0, can't be emptied or written.
    Log { node: u8, kind: ErrorKind },
}
