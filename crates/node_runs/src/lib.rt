//! One node of a match in a process of its own, turn after turn, with its notes; and how that ends.
//!
//! `node_run` starts the node of a `node_service::NodeServer` and takes its turns until one says that the match is over or
//! that the process is to end. What happened in each turn it tells a writer of notes, one line each, as notes of
//! `operator_notes`. A `Teller` tells what a turn had to tell: by `NoteLimits` some notes are told at once
//! and the others only counted, so that nobody who makes notes without end fills a disk by them. The life of a peer's store
//! that is seen first it has kept by a `LifeKeeper`, and what peers are known to have promised by a `PromiseKeeper`; `KeptPeer` is
//! what a file says of both.
//! `NodeEnd` is how `node` ends otherwise than well: its exit status, and the last line that standard error gets. `read_key`
//! and `key_text` are what the file of a match's key has; `tokens_line` is what a match file has of tokens. A `ComparedWire`
//! keeps a log from contradicting a `KeptLog`. Nothing here opens a file or a socket.
#![tactic(auto)]

mod compared_wire;
mod heard_promises;
mod kept_log;
mod kept_peer;
mod key_file;
mod life_keeper;
mod looking;
mod node_end;
mod note_groups;
mod note_limits;
mod promise_keeper;
mod running;
mod server_notes;
mod teller;
mod tokens;
mod waiting_notes;

pub use compared_wire::ComparedWire;
pub use kept_log::KeptLog;
pub use kept_peer::{KEPT_BYTES, KeptPeer, LIFE_LINE_BYTES, kept_peer_text, read_kept_peer};
pub use key_file::{key_text, read_key};
pub use life_keeper::LifeKeeper;
pub use looking::{answers_are_one, answers_its_start, look_at_store};
pub use node_end::NodeEnd;
pub use note_groups::{GROUPS, NO_PLACE, OTHERS, group_of, most_of, room_of, weight_of};
pub use note_limits::{Count, NoteLimits};
pub use promise_keeper::PromiseKeeper;
pub use running::node_run;
pub use teller::Teller;
pub use tokens::tokens_line;
