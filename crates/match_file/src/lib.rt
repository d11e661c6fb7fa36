//! Match files: TOML texts that say which match is played, by which nodes, and where its stores, logs and ports are.
//!
//! `MatchFile::read` takes the text, `game` says which game file to read next, and `config` answers with the match
//! that file and game file say. `stores` and `service` answer what the nodes on disk and over TCP need besides,
//! `node_entries` what a node needs that runs in a process of its own, the addresses of all among it. Each looks at its
//! keys in the order in which they are listed and answers the first fault; keys that it doesn't look at are passed over,
//! right or wrong; `unused` tells those that no command reads, and `unused_by_node` those by which a node in a process of
//! its own doesn't go. `kept_text` is what is kept of a match beside its stores, and `kept_difference` in what a kept one
//! is another; the identity in front of it (`read_identified`), `NodeKept` and a peer's life are what lies beside the
//! store of a node in a process of its own. Nothing here opens a file.
//!
//! `holdem_table` walks this way in its commands, and `tests/bad_input/match_rows.py` has rows of files that are right and
//! wrong.
//! Faults: `MatchFault`, 100 to 102, 104 and 92, the first in the order that `specs/Refusals.antt` states.
#![tactic(auto)]

mod absent;
mod addresses;
mod config;
mod difference;
mod digest;
mod entries;
mod hex_lines;
mod hosts;
mod kept;
mod kept_lines;
mod kept_match;
mod key;
mod log_title;
mod logs_kept;
mod match_fault;
mod match_file;
mod match_id;
mod node_entries;
mod node_kept;
mod node_tables;
mod outage;
mod outages;
mod sameness;
mod seat_names;
mod service;
mod statuses;
mod times;
mod tokens;
mod trusted;
mod unused;

pub use absent::Absent;
pub use addresses::Addresses;
pub use difference::{Counts, Difference};
pub use digest::source_digest;
pub use kept::{kept_difference, kept_text};
pub use key::Key;
pub use log_title::log_header;
pub use logs_kept::{LogsKept, logs_kept_text, read_logs_kept};
pub use match_fault::MatchFault;
pub use match_file::MatchFile;
pub use match_id::{MatchId, identified_text, read_identified};
pub use node_entries::NodeEntries;
pub use node_kept::{NodeKept, life_text, node_kept_text, read_life, read_node_kept};
pub use outage::Outage;
pub use service::Service;
