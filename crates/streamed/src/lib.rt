//! The commands `hand` and `check` over a reader and a writer, and how a run of any command but `serve` ends.
//!
//! `hand_run` runs one dealer over a script: each line is read as soon as it is whole, taken by a `slot_log::Table`, and
//! answered before the next one is awaited; a `GameWord` asks for the match's log too. `check_run` reads all of a log and
//! writes what `match_log::check` says of it. Both answer an `Ending`, whose `status` is the program's exit status and
//! whose text is what standard error gets. A program that runs a script of its own takes the same steps: it takes the
//! `Pieces` of `MOST_READS` reads, and sends each answer by `operator_notes::send`; a `Stop` tells why it went no further.
//!
//! `laws` says that a script has one output. Its tests stand in a crate above, beside those of the other commands: there
//! `answers_a_script` runs `hand_run`, and `says_yes_of_a_log` `check_run`. Faults: the variants of `Ending`, and in what
//! `hand` writes those of `betting` and 110.
#![tactic(auto)]

mod dealing;
mod ending;
mod game_word;
mod hand_script;
pub mod laws;
mod line;
mod log_check;
mod pieces;
mod running;
mod script_line;
mod stream;
mod wrong_words;

pub use ending::Ending;
pub use game_word::GameWord;
pub use hand_script::{hand_run, run_script};
pub use log_check::{check_run, read_all};
pub use pieces::Pieces;
pub use stream::{MOST_READS, PIECE, read_piece};
pub use wrong_words::WrongWords;
