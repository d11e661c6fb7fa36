//! What the processes of two nodes say to each other over a connection, and how each knows that a node of its match
//! speaks.
//!
//! A `Record` is a length (4 bytes), a kind (1) and a body: a `Hello` of each side, then a `Proof` of each, then `Frame`s
//! and `Beat`s, and where both Hellos are of the second `Version` records of further kinds, each a `More`. `record_bytes`
//! has its one text, `read_record` reads it from the front of a stream. On a connection without codes that is all, and there
//! are no proofs.
//!
//! With a `Key` that all nodes share, each side's `Hello` has a nonce. Both `Hellos` and the key give each side's
//! `proof` and the two `Way`s. On a way each record has its number, what is sent of its body is hidden under the stream
//! of ChaCha20 that the way's key seeds, and behind it stands HMAC-SHA256 (`tag`) of number, kind and what is sent.
//! A `Connection` is all of that as a machine without sockets: bytes that come go in, events come out, whose bytes go into a
//! buffer of the caller's (`Lent`); what is to be said goes in, bytes to write come out.
//!
//! The laws: what is written reads back, and records of a stream are told apart (`records_read_back`,
//! `records_are_told_apart`); what is coded on a way reads back on it, and nothing else is read on it
//! (`codes_read_back`, `only_codes_are_read`); a connection is opened by the other's proof alone, and no frame, no beat and
//! no record of a further kind comes before or uncoded (`proofs_open`, `frames_come_coded`, `beats_come_coded`,
//! `mores_come_coded`), the last on a connection of the second version alone; each event goes by what stood in front of what
//! came (`events_stand_in_front`), and each own proof is over both Hellos (`own_proofs_are_said`); what leaves a
//! connection open is coded, and takes the other's way on by one (`open_ways_go_on`); what each call does is named
//! (`calls_happen`), and what is closed stays so (`closed_stays_closed`); no tag is that of two things
//! (`codes_are_of_one_thing`); and whatever happened to one that is open, it goes by both Hellos, which are of one version,
//! the key and all that came and was said since (`open_connections_are_proved`). That only who has the key can make a proof or a tag is what
//! HMAC-SHA256 is believed to give, and no proof says it; nor does one say how long the comparison of a tag takes.
//!
//! What a caller owes:
//!
//! - to `answer` with a Hello of the version that came at `Event::Greeted`, if it speaks that: with another it is closed by
//!   122, and so is who dialled where the answer is of another version than its own Hello;
//! - a nonce that is new for each Hello. `call` and `answer` want a Hello with a nonce; that it is new no contract can
//!   say. Under one that is used twice an earlier connection can be played again, and its seal is used again;
//! - to judge who the other says that it is, and which match, at `Event::Greeted`: the key is one for all nodes, so a
//!   right proof says that a node of the match speaks, and its Hello which one. What a Hello changes, as a life that is
//!   kept or an earlier connection that ends, waits for `Event::Opened`;
//! - to draw the key's 32 bytes: a proof under it is given to whoever asks, so a word could be guessed at home;
//! - between two pieces that it takes from its socket, to call `next` until it tells nothing, and to answer a caller
//!   (or close): then less than the greatest record waits (`little_waits`: 4,137 bytes). After a fault, to take nothing
//!   more: `take_piece` keeps all that it is given, also where nothing is read;
//! - where `next` tells 122 `BadHello` of who dialled, to `answer` with its own Hello before it closes, so that the other's
//!   note says why.
//!
//! Faults: `RecordFault`, 120 to 122, and `ConnectionFault`, which has those, 124, 125 and 126; each closes the
//! connection, and is told again from then on. `peer_codes_tests` has the tests; they compare with `tests/peer_codes`, where
//! all of this is written once more.
#![tactic(auto)]

mod beat;
mod beat_reading;
mod connection;
mod connection_fault;
mod event;
mod fault;
mod fields;
mod frame;
mod hello;
mod hello_reading;
mod hellos;
mod hmac;
mod key;
mod kind;
mod laws;
mod lent;
pub mod limits;
mod more;
mod outgoing;
mod phase;
mod reading;
mod records;
mod role;
mod step;
mod version;
mod way;
mod writing;

pub use beat::Beat;
pub use connection::Connection;
pub use connection_fault::ConnectionFault;
pub use event::Event;
pub use fault::RecordFault;
pub use frame::Frame;
pub use hello::{Ends, Hello, Life, Link, MatchDigest, Nonce};
pub use hellos::Hellos;
pub use hmac::tag;
pub use key::Key;
pub use kind::Kind;
pub use laws::{
    beats_come_coded, calls_happen, closed_stays_closed, codes_are_of_one_thing, codes_read_back,
    events_stand_in_front, frames_come_coded, little_waits, mores_come_coded, only_codes_are_read,
    open_connections_are_proved, open_ways_go_on, own_proofs_are_said, proofs_open,
    records_are_told_apart, records_are_whole, records_read_back,
};
pub use lent::Lent;
pub use more::More;
pub use outgoing::Outgoing;
pub use phase::{Phase, Ways};
pub use reading::read_record;
pub use records::{Proof, Record};
pub use role::Role;
pub use version::Version;
pub use way::Way;
pub use writing::record_bytes;
