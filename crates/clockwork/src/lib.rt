//! When a node's process has its node tick: `due`, one pure function of what the process knows (`Known`).
//!
//! A node moves a match on only where it is called, and a tick is the one call that begins a campaign. Whatever `due`
//! answers, nothing that nodes promise can break; by it a match goes on soon after a process, a machine or a wire is lost,
//! and not by many ballots at once.
//!
//! A process keeps a `Watch`, which has what is seen of its node and since when, and of each peer what that has told over
//! an open connection and since when (`report_after`), and how long it took lately (`Longest`). Of these it makes a `Known`,
//! and asks whenever something came, a connection opened or ended, or the moment of the last answer has come. By `has_work`
//! and `is_behind` it knows when `work_since` and `behind_since` begin anew, by `is_quorate` whether it may keep its seats, by
//! `most_silence` how long a silent peer counts as present (`is_heard`) and by `closing` when its connection is closed, by
//! `replays` that nobody is to be played for. There are no faults.
//!
//! Three lengths follow from the longest call or way of the last minute, so that slow disks and ways aren't taken for lost
//! ones: how long a node waits for answers (`pace`), how long a silent peer counts as present, and after which silence its
//! connection is closed. They are not one, since a lost leader is to be missed long before a campaign is given up.
//!
//! Whether the seat to act is played for says `order_due`, by what is kept of each seat (`SeatWatch`: where it sits, since when it
//! is waited for, whether it is given up), of the match (`Opening`: whether each seat has come) and of the process itself
//! (`Waking`: whether it slept, and what it has heard since).
//!
//! The tests of `clockwork_lines` have the rules row by row, and `tests/processes_sim` lets simulated processes tick by them.
#![tactic(auto)]

mod action_timeout;
mod answer;
mod clock;
mod helping;
mod known;
mod lateness;
pub mod laws;
pub mod limits;
mod longest;
mod opening;
mod order;
mod peer_report;
mod presence;
mod ranks;
mod seat_watch;
pub mod silence;
mod standing;
mod teaching;
mod waits;
mod waking;
mod watch;
mod work;

pub use action_timeout::Awaited;
pub use answer::Due;
pub use clock::due;
pub use known::{Known, Link, OpenLink, Peer, PeerReport, Ticks};
pub use lateness::{LateTurn, Lateness};
pub use longest::{Longest, Measure};
pub use opening::Opening;
pub use order::{Expected, order_due};
pub use peer_report::report_after;
pub use presence::{is_behind, is_quorate, most_silence, pace};
pub use ranks::rank;
pub use seat_watch::{Acts, At, Place, SeatLook, SeatWatch};
pub use silence::{closing, is_heard};
pub use waking::{Happening, Waking};
pub use watch::{Seen, Watch};
pub use work::{has_work, replays};
