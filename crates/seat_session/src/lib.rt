//! What comes from a seat over a connection, in any pieces: lines, and the commands that they give.
//!
//! `Session::new` begins when a seat connects. `feed` takes what came, in pieces of any length; then `next` is
//! asked again and again, with the table as it is, until it answers `None`, or until the session `is_closed`. An
//! answer is `Said`: the seat has named the version and is to get its lines, or it acts, by a command that fits the
//! table; or it is a fault. Each answer takes a line feed at least, but for one that closes the session, so
//! `line_feeds` bounds how often to ask. After `reserve`, `feed_reserved` takes no memory. `laws` has what holds of
//! every session, however its bytes are cut.
//!
//! The tests `first_lines` and `acts` of `rule_tests` walk this way. Faults: `SessionFault`, 80 to 85, the first in the
//! order that `specs/Saying.antt` states; 80 and 81 close the session, which then answers them from then on.
#![tactic(auto)]

mod feeds;
mod front;
pub mod laws;
mod line_buffer;
mod phase;
mod said;
mod saying;
mod session;
mod session_fault;
mod version;

pub use feeds::line_feeds;
pub use said::Said;
pub use session::Session;
pub use session_fault::SessionFault;
