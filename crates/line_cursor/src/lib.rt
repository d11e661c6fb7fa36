//! The lines that a seat was told of a match, read off its table: the one at any place, the next one, and where a line that
//! a seat names stands.
//!
//! A seat gets a line after each deal and after each action. `Cursor` is the place of one of them: a hand, and how many of
//! its actions the line shows. `Cursor::write_next` writes a seat's line there into a buffer that is lent to it and moves on, by
//! a table that grows; so a seat that is far behind costs no memory. `Cursor::has_lines` says whether the match has come to a
//! place, and `find_line` finds the place of a line that a seat names. `laws` has what holds of the places of every match. No
//! call takes memory.
#![tactic(auto)]

mod cursor;
pub mod laws;
mod named_line;
mod naming;
mod past;
mod seat_line;

pub use cursor::Cursor;
pub use named_line::NamedLine;
pub use naming::find_line;
pub use seat_line::SeatLine;
