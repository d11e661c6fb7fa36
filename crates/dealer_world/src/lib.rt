//! All nodes of a match, and the record of what they sent, were given and showed.
//!
//! What is promised of a cluster is said of its record alone (`specs/Records.antt`, `specs/Headline.antt`): one list of
//! chosen commands is behind all lines and logs. `docs/CLUSTER.md` tells how it is carried; `laws` says what follows from
//! it for whoever reads the record, and what of the protocol it stands on.
//!
//! `Cluster::new` makes the nodes of a match over new stores and starts them; `open` goes on from what disks have, also
//! from one that stopped inside a call. `step` gives an `Event` to its node, `run` gives several, up to the first that
//! finds no memory (`Stopped`). The faults are those of the node, 90 to 95; by 92 nothing has changed, and 95 never
//! comes where the disks are honest and no frame was forged. The tests `a_tick_and_four_deliveries_deal` and
//! `a_list_goes_on_where_it_found_no_memory` of `match_tests` walk this way.
//!
//! The record is read by numbers, without memory: `frame`, all that was sent; `arrival`, what reached running nodes;
//! `piece`, all lines and log lines in the order in which they were shown; `starts`, each of which began a log; and
//! `last`, what the last call made. `put_log` joins the log of a start; it alone asks for memory.
//!
//! `reopened` and `give`, of which opening and stepping are made, are there too for whoever has one node of a match alone,
//! and `laws::events_are_calls` says what a call of that node is by its rules.
#![tactic(auto)]

mod arrivals;
mod beginning;
mod begun;
mod cluster;
mod event;
mod frames;
pub mod laws;
mod recording;
mod rows;
mod shared_rows;
mod shown;
mod starts;
mod stopped;

pub use arrivals::{Arrival, Arrivals, What};
pub use beginning::reopened;
pub use begun::Begun;
pub use cluster::{Cluster, give};
pub use event::Event;
pub use frames::{Frame, Frames};
pub use shown::{Piece, Shown};
pub use stopped::Stopped;
