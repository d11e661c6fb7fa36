//! What the process of a node reaches outside of itself: its peers, the bots of its seats, its log, and the clock.
//!
//! `Wire` is the trait; `TcpWire` are sockets over the system's readiness, by one thread that never blocks but in `wait`,
//! and `MemoryWire` stands for them in tests. A `Line` names a connection by whom it is with.
//!
//! The way through it: `now` and `wait`; `dial`, `accept` and `accept_seat` for connections that begin; `read` and `write`
//! until they answer `Halt::Later`; `close`; `add_to_log`; `called` behind each call of the node. What stands on the bytes of a line, and who speaks over it, is
//! `node_links`.
//!
//! Nothing is promised of what a wire gives. What passed is kept, in order, for clauses alone (`specs/Passages.antt`):
//! which connections began, ended or were closed, the pieces that came and that were written, which reads and writes did
//! nothing, what the log got, which moments were seen, which waits there were, and when the node was called. It takes no
//! memory (`Passages`).
//!
//! Of those who dial some have places that are kept for them: the nodes, known by their addresses (`nodes`, `places`). Whoever
//! else dials and finds no place is turned away at once, so that strangers keep no node out.
//!
//! `BindFault` says which port can't be had; `TcpWire::failed` tells which peer or log failed last, and of what kind the
//! system's error was.
#![tactic(auto)]

mod bind_fault;
mod comer;
mod coming;
mod connections;
mod halt;
mod keep_alive;
pub mod limits;
mod line;
mod memory_wire;
mod nodes;
mod passages;
mod pipe;
mod places;
mod ports;
mod tcp_wire;
mod way;
mod wire;
mod wired;

pub use bind_fault::{BindFault, Failed};
pub use halt::Halt;
pub use line::Line;
pub use memory_wire::MemoryWire;
pub use passages::Passages;
pub use tcp_wire::TcpWire;
pub use way::Way;
pub use wire::{Wire, WireFault};
