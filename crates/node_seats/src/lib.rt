//! The bots of a node's seats, over the wires of its process.
//!
//! `Seats::next` takes one thing that came of the seat that is asked: a bot that was taken in, a piece that it sent, or its
//! end. Who asks each of them (`looks`) once a turn takes no more of one seat than one piece. `begin` says from which line on a
//! bot is told the lines of its seat, `tell` tells those to which a table has come, and `part` what comes behind the last;
//! `flush` writes what waits. From which line on a bot asks to be told is read of what it says before the version (`asked`).
//! A seat has one bot at a time: who comes meanwhile waits in the system's queue. So does who comes to a seat that the caller
//! closes for a call of `next`.
//!
//! Where seats have tokens, who comes to a seat's port is a guest first: his first line is to be `#TOKEN ` and the 64
//! hexadecimal digits whose SHA-256 is the seat's `TokenDigest`. Then he is the seat's bot, in place of the one that sits
//! there; else he is refused, and his connection closed. Of a guest nothing is told but that, and nothing behind his line is
//! read before he sits.
//!
//! `Seats::next_caller` takes the next one off the queue of such a seat and reads once what he said, so that a crowd of callers
//! keeps no right bot out: who showed the token sits there, or waits for it, one a seat and the newest; who said nothing wrong
//! so far keeps a place among guests where one is for him, and is turned away where none is (`turned_away`, `crowded`).
#![tactic(auto)]

mod bot;
mod crowds;
mod guest;
mod guests;
pub mod limits;
mod seat;
mod seat_notice;
mod seats;
mod token_digest;
mod words;

pub use bot::Parting;
pub use seat_notice::SeatNotice;
pub use seats::{Called, Seats};
pub use token_digest::TokenDigest;
pub use words::Asked;
