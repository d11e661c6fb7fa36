ghost use Rattle.std.specs.Prelude.{◌≡◌, ◌↔◌, Some, Err, IsTrue};
ghost use Rattle.dealer_node.specs.FaultText.{code_of, fault_text};
ghost use Rattle.dealer_node.specs.declared.fault.NodeFault.TheVariants.{OutOfMemory};

use paxos_wire::FrameFault;
use promise_store::StoreFault;
use std::alloc::AllocError;
use std::fmt;
use thiserror::Error;

/// Why a call of a node did nothing, or took the node down.
///
/// It prints as its number and its name, and behind them the fault that it holds.
#[derive(Clone, Copy, Debug, PartialEq, Eq, Error)]
pub enum NodeFault {
    /// 90: the node is down. Nothing has changed.
    Down,
    /// 91: the store can't be used; the node is down until it is started.
    Store(StoreFault),
    /// 92: a growth was refused. Nothing has changed.
    OutOfMemory,
    /// 93: no ballot is above all that were seen, or no slot is left. Nothing has changed.
    Spent,
    /// 94: the bytes are no frame. Nothing has changed.
    BadFrame(FrameFault),
    /// 95: another command is known at the slot; the node is down until it is started.
    Conflict,
    /// 96: no hand runs at the node, so that there is nobody to play for. Nothing has changed.
    NothingToAct,
}

impl NodeFault {
    /// The fault's number, 90 to 96.
    pub fn code(self) -> u8
        ensures { result ≡ code_of self }
    {
        match self {
            NodeFault::Down => 90,
            NodeFault::Store(_) => 91,
            NodeFault::OutOfMemory => 92,
            NodeFault::Spent => 93,
            NodeFault::BadFrame(_) => 94,
            NodeFault::Conflict => 95,
            NodeFault::NothingToAct => 96,
        }
    }
}

/// Whether a call of a node was refused by want of memory, 92.
pub fn is_out_of_memory(answer: Result<(), NodeFault>) -> bool
    ensures { IsTrue result ↔ (answer ≡ Err OutOfMemory) }
{
    matches!(answer, Err(NodeFault::OutOfMemory))
}

impl From<AllocError> for NodeFault {
    ghost from_gives = { λ _ fault. fault ≡ OutOfMemory };

    fn from(_: AllocError) -> Self {
        NodeFault::OutOfMemory
    }
}

impl fmt::Display for NodeFault {
    ghost output = { λ fault. Some (fault_text fault) };

    fn fmt<W: fmt::Write>(&self, f: &mut fmt::Formatter<W>) -> fmt::Result {
        match self {
            NodeFault::Down => f.write_str("90 Down"),
            NodeFault::Store(fault) => write!(f, "91 Store {fault}"),
            NodeFault::OutOfMemory => f.write_str("92 OutOfMemory"),
            NodeFault::Spent => f.write_str("93 Spent"),
            NodeFault::BadFrame(fault) => write!(f, "94 BadFrame {fault}"),
            NodeFault::Conflict => f.write_str("95 Conflict"),
            NodeFault::NothingToAct => f.write_str("96 NothingToAct"),
        }
    }
}
