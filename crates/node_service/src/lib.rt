//! One node of a match in a process of its own: its turns.
//!
//! `NodeServer::new` takes a station, the wires of the process, its peers, seats and askers; `start` starts the node; then `turn`
//! again and again, until it answers that the match is over or that the process is to end. A turn waits once, and reads what
//! peers sent; then each thing that came is one call of the station, in order, and what a call made is handed on before the next:
//! frames to peers, text into the log. Seats are told the lines of their seats off the table of the node, each from the line on
//! from which its bot asked to be; a node without a quorum tells them to come again later. Frames of peers are taken for 20 ms at
//! most, but one at least, and up to four while the next one costs no sync; the rest is kept. Then the node ticks where
//! `clockwork` says so, and the seat to act is played for; whoever asks how the node is gets one line. Between turns `notice`
//! tells what a note is to be made of, and what is to be kept.
//!
//! Whatever wires give, what is promised of stations holds: the server changes its node by `Station::step` alone. What the
//! log has is what the node showed to it.
#![tactic(auto)]

mod apart;
mod awaited_lines;
mod company;
mod deals;
mod desk;
mod ending;
mod lasting;
pub mod laws;
mod limits;
mod local_node;
mod newest_hand;
mod noting;
mod outcome;
mod peer_reports;
mod rate;
mod seat_acts;
mod seat_lines;
mod seat_watches;
mod server;
mod server_notice;
mod sitting;
mod status;
mod taking;
mod terms;
mod ticking;
mod turn_timer;
mod turned_away;
mod unread;
mod wrong_tokens;

pub use local_node::LocalNode;
pub use outcome::Outcome;
pub use server::NodeServer;
pub use server_notice::{ServerNotice, Setting};
pub use terms::Terms;
