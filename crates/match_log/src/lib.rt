//! The log of a match: a header, a line for each finished hand with what it paid, and the score. `check` tells
//! whether a text is a whole one, and `laws` says what holds of all of them.
//!
//! A writer begins with `header`, and after each command that took effect appends `further_lines`: nothing while a
//! hand runs, the line of a hand that has ended, and the score once the match is over (`state_line` and
//! `score_line` write one of them alone). Names are `Name`, and those of all seats `SeatNames`. Calls with
//! `reserved` in their name take no memory where there is room for the most that they append, a constant beside
//! each. `put_fronted` prints lines of a log among others. A reader calls `check` with all bytes of a log; it takes no
//! memory.
//!
//! The test `a_match_of_two_hands` of `rule_tests` writes a log, `whole_logs_are_right` checks some. Faults:
//! `LogFault`, with its line from 1 and a `LogFaultKind` from 45 to 49; what they mean stands in `specs/Check.antt`.
#![tactic(auto)]

mod checked;
mod checking;
mod dealt_hand;
mod fault;
mod fault_kind;
mod fields;
mod front;
mod fronted_lines;
mod game_word;
pub mod laws;
mod log_addition;
mod log_header;
mod name;
mod names_text;
mod numeral;
mod printed_text;
mod score;
mod score_lines;
mod seat_names;
mod seats;
mod settlement;
mod state_fields;
mod state_lines;

pub use checking::check;
pub use fault::LogFault;
pub use fault_kind::LogFaultKind;
pub use fronted_lines::put_fronted;
pub use game_word::is_game_word;
pub use log_addition::{MOST_FURTHER, further_lines, further_lines_reserved};
pub use log_header::{MOST_HEADER, header, header_reserved};
pub use name::Name;
pub use score_lines::{MOST_SCORE_LINE, score_line, score_line_reserved};
pub use seat_names::SeatNames;
pub use state_lines::{MOST_STATE_LINE, state_line, state_line_reserved};
