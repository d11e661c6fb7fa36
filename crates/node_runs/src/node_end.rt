ghost use Rattle.std.specs.Prelude.{◌≡◌, Some};
ghost use Rattle.dealer_node.specs.declared.fault.NodeFault.TheVariants.{OutOfMemory};
ghost use Rattle.node_runs.specs.NodeEnds.{status_of, end_text};
ghost use Rattle.node_runs.specs.declared.node_end.NodeEnd.TheVariants.{Match as OfMatch, Node as OfNode};

use dealer_node::NodeFault;
use match_file::{Difference, MatchFault};
use std::alloc::AllocError;
use std::fmt;

/// Why the process of a node ends though the match isn't over.
#[derive(Clone, Copy, Debug)]
pub enum NodeEnd {
    /// The match file, its key or its game is refused.
    Match(MatchFault),
    /// 104: the match file, its game, what lies beside the store or the store can't be read.
    Unreadable,
    /// 108: the store is in use.
    StoreInUse,
    /// 109: what lies beside the store is of another match or node.
    OtherMatch(Difference),
    /// 105: a port can't be bound.
    LinkFailed,
    /// 106: the log can't be opened, kept or written.
    LogFailed,
    /// The fault of the node's call.
    Node(NodeFault),
    /// 127: the node's store is another than the one that a peer knows, so it was lost and made anew.
    StoreReplaced,
    /// 130: the node's store promises less than it had promised, so an older copy of it was put back.
    StoreOlder,
    /// 129: its log would contradict one that an earlier start kept.
    LogDiffers,
}

impl NodeEnd {
    /// The program's exit status: 3 where the node's own store is at fault (91, 95) or its log would differ (129), 2 where what it is asked for is refused,
    /// and 1 where the system refuses something else, want of memory too.
    pub fn status(self) -> u8
        ensures { result ≡ status_of self }
    {
        match self {
            NodeEnd::Node(NodeFault::Store(_))
            | NodeEnd::Node(NodeFault::Conflict)
            | NodeEnd::LogDiffers => 3,
            NodeEnd::Match(MatchFault::OutOfMemory)
            | NodeEnd::LinkFailed
            | NodeEnd::LogFailed
            | NodeEnd::Node(_) => 1,
            NodeEnd::Match(_)
            | NodeEnd::Unreadable
            | NodeEnd::StoreInUse
            | NodeEnd::OtherMatch(_)
            | NodeEnd::StoreReplaced
            | NodeEnd::StoreOlder => 2,
        }
    }
}

impl fmt::Display for NodeEnd {
    ghost output = { λ end. Some (end_text end) };

    fn fmt<W: fmt::Write>(&self, f: &mut fmt::Formatter<W>) -> fmt::Result {
        match self {
            NodeEnd::Match(fault) => write!(f, "{fault}"),
            NodeEnd::Unreadable => f.write_str("104 Unreadable"),
            NodeEnd::StoreInUse => f.write_str("108 StoreInUse"),
            NodeEnd::OtherMatch(difference) => write!(f, "109 OtherMatch {difference}"),
            NodeEnd::LinkFailed => f.write_str("105 LinkFailed"),
            NodeEnd::LogFailed => f.write_str("106 LogFailed"),
            NodeEnd::Node(fault) => write!(f, "{fault}"),
            NodeEnd::StoreReplaced => f.write_str("127 StoreReplaced"),
            NodeEnd::StoreOlder => f.write_str("130 StoreOlder"),
            NodeEnd::LogDiffers => f.write_str("129 LogDiffers"),
        }
    }
}

impl From<MatchFault> for NodeEnd {
    ghost from_gives = { λ fault end. end ≡ OfMatch fault };

    fn from(fault: MatchFault) -> NodeEnd {
        NodeEnd::Match(fault)
    }
}

impl From<NodeFault> for NodeEnd {
    ghost from_gives = { λ fault end. end ≡ OfNode fault };

    fn from(fault: NodeFault) -> NodeEnd {
        NodeEnd::Node(fault)
    }
}

impl From<AllocError> for NodeEnd {
    ghost from_gives = { λ _ end. end ≡ OfNode OutOfMemory };

    fn from(_: AllocError) -> NodeEnd {
        NodeEnd::Node(NodeFault::OutOfMemory)
    }
}
