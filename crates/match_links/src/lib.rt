//! What a match reaches outside of its nodes: its seats, the connections between its nodes, and their logs.
//!
//! `Links` is the trait; `TcpLinks` are sockets of this machine and files, `MemoryLinks` stand for them in tests.
//!
//! The way through it: `TcpLinks::bind` takes the ports of a match and joins its nodes, and `add_log` gives each node its
//! log, from node 0 on. Then come the calls of `Links`: `reserve` for the room that the others may want; `open` and
//! `empty_log` for a node that starts; `accept` for a seat that is awaited, and `read` for each piece that it sends; `send`
//! and `receive` for a frame between two nodes; `write` and `add_to_log` for what a node shows; `hang_up` for a seat that is
//! dropped, and `close` for a node that stops; at the end `part`.
//!
//! Both kinds serve a whole match: `MemoryLinks` in tests of `match_tests`, as `a_match_outlives_a_node`, and `TcpLinks`
//! through the program, by `tests/serve`.
//!
//! Nothing is promised of what a link gives: what is promised of a match holds whatever its links answer. What passed is
//! kept, in order, for clauses alone (`specs/Passages.antt`): who was seated, the pieces that came, the lines that seats
//! were told, and what logs were given. It takes no memory.
//!
//! Faults: a call that answers `LinkFault` did nothing; by `Slow` and `OutOfMemory` the same call may be made again, by
//! `Failed` the link is done for. `PortFault` says which port can't be had. `TcpLinks::failed` tells which port or log
//! failed last, and of what kind the system's error was.
//!
//! The clock is looked at here alone: `accept` and `read` of `TcpLinks` wait so long at most as `limits` says, and are
//! then `Slow`. Whom of those who wait at a port an accept seats is exact (`specs/Waiting.antt`, `specs/Waiters.antt`);
//! `SeatPort` has a port's listener, those who wait there (`Waiters`, each a `Held`) and who sits (`Seated`), `Seats` all
//! seats' ports, what is waited for at once (`Watch`) and who is turned away (`TurnedAway`).
#![tactic(auto)]

mod blank;
mod callers;
mod deadline;
mod held;
mod input;
pub mod limits;
mod links;
mod memory_links;
mod memory_logs;
mod passages;
mod peers;
mod piece;
mod port_fault;
mod port_numbers;
mod seat_port;
mod seated;
mod seats;
mod tcp_links;
mod turned_away;
mod waiters;
mod watch;

pub use links::{LinkFault, Links};
pub use memory_links::{MemoryLinks, Reached, Told};
pub use port_fault::{Failed, PortFault};
pub use tcp_links::TcpLinks;
