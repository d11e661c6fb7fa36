ghost use Rattle.std.specs.Prelude.{◌≡◌, Some};
ghost use Rattle.serving.specs.FaultText.{code_of, fault_text};
ghost use Rattle.serving.specs.declared.serve_fault.ServeFault.TheVariants.{Node as OfNode};
ghost use Rattle.dealer_node.specs.declared.fault.NodeFault.TheVariants.{OutOfMemory};

use dealer_node::NodeFault;
use std::alloc::AllocError;
use std::fmt;
use thiserror::Error;

/// Why a server can't go on.
///
/// It prints as its number and its name; the fault of a node as that prints itself.
#[derive(Clone, Copy, Debug, PartialEq, Eq, Error)]
pub enum ServeFault {
    /// 105: a port can't be bound, or a connection between two nodes failed.
    LinkFailed,
    /// 106: a log can't be emptied or written.
    LogFailed,
    /// The fault of a node's call: 91 where a node whose store failed can't be started again or
    /// fails once more, 92, 93, 94 or 95. By 92
    /// nothing has changed, and the same turn comes again.
    Node(NodeFault),
}

impl ServeFault {
    /// The fault's number.
    pub fn code(self) -> u8
        ensures { result ≡ code_of self }
    {
        match self {
            ServeFault::LinkFailed => 105,
            ServeFault::LogFailed => 106,
            ServeFault::Node(fault) => fault.code(),
        }
    }
}

impl From<NodeFault> for ServeFault {
    ghost from_gives = { λ fault answer. answer ≡ OfNode fault };

    fn from(fault: NodeFault) -> ServeFault {
        ServeFault::Node(fault)
    }
}

impl From<AllocError> for ServeFault {
    ghost from_gives = { λ _ answer. answer ≡ OfNode OutOfMemory };

    fn from(_: AllocError) -> ServeFault {
        ServeFault::Node(NodeFault::OutOfMemory)
    }
}

impl fmt::Display for ServeFault {
    ghost output = { λ fault. Some (fault_text fault) };

    fn fmt<W: fmt::Write>(&self, f: &mut fmt::Formatter<W>) -> fmt::Result {
        match self {
            ServeFault::LinkFailed => f.write_str("105 LinkFailed"),
            ServeFault::LogFailed => f.write_str("106 LogFailed"),
            ServeFault::Node(fault) => write!(f, "{fault}"),
        }
    }
}
