//! What goes between the processes of a simulated match, and who comes to them, over one virtual clock.
//!
//! `Ways` has all connections, and what is on its way over them: how long it takes from one node to another, and which ways are
//! cut. A `Bot` plays a seat. An `Order` is a line of the script, which says what happens when. Moments and lengths of time are
//! whole microseconds.
#![tactic(auto)]

mod bot;
mod connection;
mod digits;
mod order;
mod ways;

pub use bot::{Bot, Habits, Wish, drawn};
pub use connection::{Connection, Flight, Load, Party};
pub use digits::put_bytes;
pub use order::{NUMBERS, Order, Word};
pub use ways::{NODES, Ways};
