//! How a node is, in one line for whoever asks at its status port.
//!
//! A `Status` has what such a line says, and `status_line` writes it: `node 1 front 37 hand 4 over no replaying no promised
//! 4.0 leads no quorum yes peers 0:37:campaigns,2:gone seats alice:seated,bob:away pending no backlog 0,812 commands 412/s`
//! and LF.
//!
//! `Askers` are those who came to the port: `accept` takes them in and says whether somebody waits for a line, `answer`
//! gives it to all who wait, and `flush` writes it and lets go of who has it, or takes too long. Nothing of what they send
//! is read, and nothing waits for them.
#![tactic(auto)]

mod asker;
mod askers;
pub mod limits;
mod line;
mod status;

pub use askers::Askers;
pub use line::status_line;
pub use status::{PeerStatus, SeatStatus, Sits, Status};
