//! Scripts that drive a cluster of nodes: what a line says, and how what comes of it is printed.
//!
//! `read` takes a line, without its line feed, and answers the `Order` that it says, where there are so many nodes,
//! seats and frames (`Bounds`); any other line is `BadScript`, 110. `put_frame`, `put_seat_line`, `put_log_line`,
//! `put_seat_fault` and `put_fault` append a whole line to a text, or nothing where memory is refused. Nothing here
//! knows a node.
//!
//! The test `each_word_says_its_order` of `rule_tests` reads a line of each word, `what_comes_is_printed` prints.
#![tactic(auto)]

mod bad_script;
mod bounds;
mod number;
mod order;
mod reading;
mod shown_lines;
mod word;

pub use bad_script::BadScript;
pub use bounds::Bounds;
pub use order::Order;
pub use reading::read;
pub use shown_lines::{put_fault, put_frame, put_log_line, put_seat_fault, put_seat_line};
pub use word::Word;
