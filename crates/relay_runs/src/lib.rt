//! A relay between a bot that dials once and the nodes of a match, over wires.
//!
//! `RelayServer::new` takes what it is to go by (`Terms`); then `turn` again and again, until it answers why the relay ends
//! (`RelayEnd`). Over each connection it asks the node for the line that the bot was given last, or at first for the first or the
//! newest one. A turn waits once, takes in a bot where none is there, reads what came, gives each line to the machine of
//! `seat_relay`, does what that answers, and writes. Between turns `take_notices` tells what notes are to be made of, and
//! `trace` has the lines to and from the bot.
//!
//! Over the wires line `Seat(0)` is the bot, and `Peer(n)` node n. What waits is kept small: for the bot 64 KiB and a line, for a
//! node the end of the first lines or of one answer, and of what came over each connection the beginning of a line and a piece.
#![tactic(auto)]

mod answering;
mod bot;
mod bot_side;
mod desk;
mod holding;
pub mod laws;
mod limits;
mod line_reader;
mod node_state;
mod nodes_side;
mod notice;
mod opening;
mod pieces;
mod queues;
mod relay_end;
mod saying;
mod server;
mod stop;
mod terms;
mod trace;

pub use notice::RelayNotice;
pub use relay_end::RelayEnd;
pub use server::RelayServer;
pub use terms::Terms;
