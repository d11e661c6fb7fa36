use std::net::IpAddr;

/// An address of a node of this match: one at which it is dialled, or from which it dials.
#[derive(Clone, Copy, Debug, PartialEq, Eq)]
pub struct NodeAddress {
    /// The node's number.
    pub node: u8,
    pub at: IpAddr,
}
