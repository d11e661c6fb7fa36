use std::alloc::AllocError;
use std::io::{self, ErrorKind};
use std::net::SocketAddr;

/// Why the ports of a node's process can't be had.
#[derive(Clone, Copy, Debug)]
pub enum BindFault {
    /// This address can't be listened at, by an error of this kind.
    Port {
        address: SocketAddr,
        kind: ErrorKind,
    },
    /// The system gives no readiness or no clock, by an error of this kind; or the seats want a port above the greatest.
    Failed {
        kind: ErrorKind,
    },
    /// Memory was refused.
    OutOfMemory,
}

impl BindFault {
    /// The fault of an address that an error of this kind makes.
    pub(crate) fn of(address: SocketAddr, kind: ErrorKind) -> BindFault {
        match kind {
            ErrorKind::OutOfMemory => BindFault::OutOfMemory,
            _ => BindFault::Port { address, kind },
        }
    }
}

impl From<AllocError> for BindFault {
    fn from(_: AllocError) -> BindFault {
        BindFault::OutOfMemory
    }
}

impl From<io::Error> for BindFault {
    fn from(fault: io::Error) -> BindFault {
        match fault.kind() {
            ErrorKind::OutOfMemory => BindFault::OutOfMemory,
            kind => BindFault::Failed { kind },
        }
    }
}

/// What a failed call of a wire was about, and the kind of the system's error.
#[derive(Clone, Copy, Debug)]
pub enum Failed {
    /// A peer can't be dialled at this address.
    Peer {
        address: SocketAddr,
        kind: ErrorKind,
    },
    /// The log can't be written.
    Log {
        kind: ErrorKind,
    },
}
