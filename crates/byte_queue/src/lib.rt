//! Bytes of a stream that come in any pieces and are taken from the front.
//!
//! `ByteQueue::new` is empty. `push` takes the next piece; or `reserve` makes the room first, and `push_reserved` then
//! takes no memory. `waiting` shows what came and wasn't taken yet, `skip` takes so much of its front, `clear` all of it.
//! `remove_front` is what it stands on, for every vector that is used up from its front.
//!
//! Feeds of frames and the lines of a seat are kept so, and what comes over a link is removed so: the tests
//! `a_stream_in_pieces` and `a_piece_goes_into_room_that_was_reserved` of `rule_tests` show it under a feed. The one fault
//! is want of memory, which changes nothing.
#![tactic(auto)]

mod byte_queue;
mod removal;

pub use byte_queue::ByteQueue;
pub use removal::remove_front;
