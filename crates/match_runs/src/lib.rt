//! Runs of a match with all its nodes, over what a program gives them: `play` over a script, `serve` over links; and how
//! each ends.
//!
//! `play_run` reads a script of nodes and writes what comes of each of its lines: it takes a match file and its game,
//! and answers a `streamed::Ending`. `serve_run` takes the turns of a `serving::Server` until all is over or one is
//! refused, and tells a writer of notes what happens: it makes an `operator_notes::Note` of it. A program that serves opens
//! its files first, and tells by `tell_ports` where its seats are awaited; an `Unserved` tells why it went no further.
//! `drawn_seed` makes a seed of random bytes, and `short_seeds` says which can be guessed. `Conclusion` is how any command
//! ends: its exit status, and the last line that standard error gets. Nothing here opens a file or a socket.
//!
//! The tests `answers_a_script_of_nodes` and `a_served_match_is_told_in_notes` of `command_tests` walk these ways.
//! Faults: those of `streamed::Ending` and of `serving::ServeFault`.
#![tactic(auto)]

mod conclusion;
mod creating;
mod dealt;
mod node_script;
mod refusals;
mod scripted;
mod seat_lines;
mod seeds;
mod served_match;
mod telling;
mod unserved;

pub use conclusion::Conclusion;
pub use creating::unmade;
pub use node_script::{play_match, play_run};
pub use seeds::{drawn_seed, is_short, seed_line, short_seeds};
pub use served_match::serve_run;
pub use telling::tell_ports;
pub use unserved::Unserved;
