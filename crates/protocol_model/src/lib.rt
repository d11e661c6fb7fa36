//! What the nodes of a replicated dealer may do, and what holds whatever they do.
//!
//! Each node is an acceptor, a proposer and a learner of 'Paxos Made Simple' for a row of slots, and a dealer that
//! applies the commands chosen there. The crate has definitions (`specs/`) and laws (`laws`). A world has the
//! nodes, all messages that were ever sent, all texts that were ever shown to a seat or in a log, and all that ever
//! came from outside. A move is of one node, and goes by what that node knows: it gets any message that was ever
//! sent (so messages may be lost, repeated, late and in any order), begins a ballot, promises, proposes, accepts,
//! learns, tells, shows, hears a seat; it stops at any moment, in the middle of an append too, and starts again
//! with its store alone. A run is any list of such moves of any nodes. The dealer whose commands are ordered is a
//! parameter of it all, and so is the number of nodes.
//!
//! Who shows that a call of a node is right shows that it is a chain of its moves (`specs/Moves.antt`), and calls
//! `laws::chains_reach`; then all other laws hold of the world after it. `proofs/Examples.antt` has a whole run of
//! three nodes. There is no code here, and no fault.
#![tactic(auto)]

pub mod laws;
