//! What nodes say to each other, byte for byte: ballots, commands and messages, the one frame that is written of each
//! message, and the messages of a stream of frames, however it is cut into pieces. Frames of the version before are read
//! too; `Version` tells the two apart.
//!
//! A `Message` is written by `encode` and read by `decode`, into a `MessageRoom` of the reader's, from which it borrows its
//! entries or commands; a stream of frames is read by a `Feed`, which takes pieces by `feed` and gives messages by `next`,
//! or at once by `read_stream`, as messages that own their frames. Ballots, slots and commands of a record are written and
//! read by calls of their own. Calls with `reserved` in their name take no memory; `frame_len` and `command_len` say how
//! much room they want.
//!
//! What is said:
//!
//! - `limits`: the ranges of all numbers, and the most bytes of each text.
//! - `version`: the two versions of frames and records, by their byte.
//! - `kind`: the eight kinds of messages, by their byte.
//! - `ballot`: ballots, and which of two is below the other.
//! - `entry`, `entries`: what was accepted at a slot, and what a Promise tells of, owned or borrowed.
//! - `command_list`: commands for slots that follow one another, owned or borrowed.
//! - `message`: the messages; `message_room`: where the lists of one that is read stand; `kept_message`: one that is kept.
//! - `node_set`: which nodes said something, and whether more than half of all did.
//! - `fault`: why bytes are no frame, 50 to 54, the first in the order that `specs/Faults.antt` states.
//!
//! Its bytes (`docs/FORMATS.md` has them all in a table), from the smallest text to the largest, each file on those before
//! it:
//!
//! - `count_bytes`: how many bytes commands, entries and messages take.
//! - `read_numbers`, `write_numbers`: numbers, slots and ballots.
//! - `read_command_bytes`, `write_command_bytes`: commands, with their deals and actions.
//! - `read_entries`, `write_entries`: the entries of a Promise.
//! - `read_messages`, `write_messages`: the fields of messages.
//! - `read_frames`, `write_frames`: whole frames.
//! - `read_records`, `write_records`: ballots, slots and commands by themselves, as records of a journal have them.
//! - `feed`: a stream that comes in pieces; `read_streams`: a whole one. A stream at fault tells its fault from then on.
//!
//! And `print_messages`: how a message prints; `laws`: that frames read back, are told apart and are short.
//!
//! The test `frames_read_and_write_alike` of `rule_tests` goes from messages to frames and back, `a_stream_in_pieces`
//! through a feed.
#![tactic(auto)]

mod ballot;
mod command_list;
mod count_bytes;
mod entries;
mod entry;
mod fault;
mod feed;
mod kept_message;
mod kind;
mod laws;
pub mod limits;
mod message;
mod message_room;
mod node_set;
mod print_messages;
mod read_command_bytes;
mod read_entries;
mod read_frames;
mod read_messages;
mod read_numbers;
mod read_records;
mod read_streams;
mod version;
mod write_command_bytes;
mod write_entries;
mod write_frames;
mod write_messages;
mod write_numbers;
mod write_records;

pub use ballot::Ballot;
pub use command_list::{CommandList, Commands};
pub use count_bytes::{command_len, frame_len};
pub use entries::{Entries, ToldEntries};
pub use entry::Entry;
pub use fault::FrameFault;
pub use feed::Feed;
pub use kept_message::KeptMessage;
pub use laws::{
    frames_are_short, frames_are_told_apart, frames_read_back, old_frames_read_back,
    readings_have_commands,
};
pub use message::Message;
pub use message_room::MessageRoom;
pub use node_set::NodeSet;
pub use read_frames::decode;
pub use read_records::{read_ballot, read_command, read_commands, read_slot};
pub use read_streams::read_stream;
pub use version::Version;
pub use write_command_bytes::command_bytes;
pub use write_frames::{encode, encode_reserved};
pub use write_numbers::{ballot_bytes, push_all, slot_bytes};
pub use write_records::{
    write_ballot, write_ballot_reserved, write_command, write_command_reserved,
};
