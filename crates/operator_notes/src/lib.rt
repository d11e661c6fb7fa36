//! Notes of a match: what standard error gets of a run that goes on, one line each; and what a node's files are called.
//!
//! `Note` is what `serve` tells, and of seats `node` too; `NodeNote` is what only a node's process tells. `tell_note` and
//! `tell_node_note` write one in one piece; `tell_file` and the like are public forms of single notes. Why the system refused a
//! file or a port is a `Cause`, why a file is none of a key a `KeyFault`. Paths and keys that others wrote are shown without
//! control characters (`put_shown`). `send` writes bytes as far as they go; a `Stop` says why it went no further. Nothing here
//! opens a file or a socket.
#![tactic(auto)]

mod beside_store;
mod cause;
mod file_notes;
mod key_fault;
mod log_names;
mod node_files;
mod node_note;
mod note;
mod seat_ports;
mod sending;
mod shown;
mod stop;
mod time;

pub use beside_store::{life_path, logs_kept_path, node_kept_path};
pub use cause::Cause;
pub use file_notes::{
    tell_file, tell_made, tell_no_such_node, tell_not_kept, tell_open, tell_port, tell_short_seeds,
    tell_unlocked, tell_unused, tell_unused_in_node,
};
pub use key_fault::{KeyFault, MOST_BYTES};
pub use log_names::{kept_log_path, kept_number, stands_in};
pub use node_files::{log_path, store_path};
pub use node_note::{NodeNote, put_node_note, tell_node_note};
pub use note::{About, Note, put_note, put_source, put_times, tell_note};
pub use seat_ports::SeatPorts;
pub use sending::{send, write_line};
pub use shown::{put_named, put_path, put_shown};
pub use stop::Stop;
