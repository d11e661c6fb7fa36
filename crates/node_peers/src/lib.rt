//! The connections of a node's process to its peers, over wires.
//!
//! `Peers` dials the peers of lesser numbers, takes in those of greater ones, judges Hellos, tells what came (`Notice`),
//! and writes what the node sends. It stands on `node_links`, which has what is said over one connection, and on
//! `node_wires`, which has the bytes of all.
//!
//! A frame may be lost here, and none is made up: each that is told of a peer came over one of its lines behind that node's
//! Hello (`Peers::next`). Whatever wires give, what is promised of nodes holds. Peers tell each other the lives of stores that
//! they know (`Lives` of `node_links`): of a node of which two are known no frame is told any more, and it is let go.
//!
//! `peers` has the public calls, `greeting`, `dialling`, `hearing`, `asking`, `replacing`, `ending` and `writing` the rules,
//! `knowing` which lives are known; `peer` what is known of one, with `measures`, what is measured of it; `lines` the connections by
//! their lines and what waits to be told, over `links`, the connections of all places, `link`, one of them, and `aside`, the
//! frames that are set aside; `saying` what
//! one says. `own_front` has the front of this node. Of a peer `dials` has how it is dialled, `frames` what goes to it, `promises` what
//! it is known to have promised, and `reports` what it is told of this node.
#![tactic(auto)]

mod aside;
mod asking;
mod dialling;
mod ending;
mod greeting;
mod hearing;
mod knowing;
mod lag;
pub mod limits;
mod lines;
mod link;
mod links;
mod measures;
mod node_address;
mod notice;
mod own_front;
mod peer;
mod peers;
mod replacing;
mod saying;
mod view;
mod writing;

pub use lag::Lag;
pub use node_address::NodeAddress;
pub use notice::Notice;
pub use peers::Peers;
pub use view::View;
