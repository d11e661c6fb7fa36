//! A cluster of nodes over disks in memory, which a script drives line by line.
//!
//! `Playing::new` starts all nodes of a match over new disks without fuses, and prints the headers of their logs. `answer`
//! takes a line of a script, without its line feed: what it says happens, and what comes of that is printed, of each event
//! first the frames, numbered in order of sending, then lines of seats and log lines in their order, then faults. A line
//! that says nothing, or names what there isn't, is answered by `E 110 BadScript`. `flush` delivers the frame of least
//! number that was never delivered, as often as it says and while there is one. The test `answers_a_script_of_nodes`,
//! in a crate above, gives it a script. Who drives a cluster in another way prints by `put_piece`, `put_pieces` and
//! `put_seat_faults` what readers get and what is wrong with what seats sent.
//!
//! An `AllocError` is the only fault: memory was refused. Then `Playing` may have taken an event whose text was not given
//! out, so a run of a script ends there. One list is behind what the cluster showed all the same.
#![tactic(auto)]

mod marks;
mod playing;
mod showing;

pub use playing::Playing;
pub use showing::{put_piece, put_pieces, put_seat_faults};
