//! Connections between the processes of two nodes, without sockets: with codes where the node has a key, else without.
//!
//! A `Connection` is a machine: bytes that come go in, what they say comes out; what waits in an `Outbox` goes out as bytes,
//! the newest beat first, then lives and settings, then the frames. First each side says its Hello. Of a `PlainConnection`
//! `judge` says which is taken: of two nodes the one with the greater number dials. Of a `CodedConnection` what the Hello says
//! of the match is judged at once, and what changes by it, a store that is known and an earlier connection, once the other's
//! proof is right. The records, proofs and codes are those of `peer_codes`. What a connection goes by, of all that came over
//! it and was written to it, each of its calls keeps (`specs/Going.antt`), so of each frame that it tells is known how it
//! came (`specs/Talks.antt`).
//!
//! Hellos are of two versions, and a connection is of the version of both its Hellos. Behind the second records of further
//! kinds come too (`Further`): `Lives`, which stores' lives the other knows, by which two lives of one store are found
//! (`Known`), `Settings`, and which ballot the other knows this node to have promised (`promise_in`). Who was dialled answers in the version that came; `next_turn` says in which a peer is dialled, by
//! how its last dial ended (`DialEnd`), and `Heading` which version a Hello had that was refused.
//!
//! Beside it stand the small clocks of a connection, which are told the moment and look at no clock: `Dial`, when a peer
//! is dialled and when a connection that isn't open is given up; `Pulse`, when a beat is due and how long the way takes;
//! `Asked`, which Asks go to a peer; `Accepted`, the last Accepted that went to it, which goes again while it is behind;
//! `Forwarded`, the last act that went on to it, which goes again while the front stands; `Owed`, what it owes an answer
//! to that may be lost; `Refusals`, how many callers were refused, for one note a second of each number; `Notes`, which
//! faults of a peer were told; `pause_after` and `closed_pause`, how long it isn't dialled behind one, or behind a dial that
//! was closed. Whatever they let through or drop, what is promised of nodes holds: a frame may be lost, and one that goes
//! again is the same frame.
//!
//! The laws, of connections without codes: what one side says the other hears (`said_is_heard`), no frame comes but over an
//! open connection, of a record that was read (`frames_come_from_open_connections`), and one that is open is so by a Hello
//! that was taken, of the version in which this side dialled (`open_connections_were_judged`). A peer is dialled neither too
//! soon nor later than was told (`peers_are_dialled_in_time`), and in the first version only
//! where it is known to be an older node (`dials_take_turns`). What records of further kinds tell reads back as it was told
//! (`what_is_told_reads_back`).
//!
//! Faults: `PeerFault`, 120 to 128 and 130; each closes the connection, and is told again from then on.
#![tactic(auto)]

mod accepted;
mod arrived;
mod asked;
mod coded_connection;
mod coded_step;
mod connection;
mod dial;
mod forwarded;
mod frames;
mod front;
mod further;
mod heading;
mod heard;
mod judging;
mod kept_frame;
pub mod laws;
pub mod limits;
mod lives;
mod notes;
mod outbox;
mod outgoing;
mod owed;
mod own;
mod pausing;
mod peer_fault;
mod phase;
mod plain_connection;
mod promised;
mod pulse;
mod refusals;
mod settings;
mod stage;
mod step;
mod turning;

pub use accepted::{Accepted, LastAccepted, ends_block};
pub use arrived::Arrived;
pub use asked::{Asked, LastAsk};
pub use coded_connection::CodedConnection;
pub use connection::Connection;
pub use dial::{Dial, DialDue, connect_wait};
pub use forwarded::Forwarded;
pub use further::Further;
pub use heading::Heading;
pub use heard::Heard;
pub use judging::judge;
pub use kept_frame::KeptFrame;
pub use lives::{Lives, lives_of};
pub use notes::Notes;
pub use outbox::Outbox;
pub use outgoing::Outgoing;
pub use owed::{Owed, Question, Request, Subject, answered_in};
pub use own::{Known, Met, Own};
pub use pausing::{closed_pause, longer, pause_after};
pub use peer_fault::{Digests, Mismatch, Numbers, PeerFault, Whose, WrongNumber};
pub use phase::Phase;
pub use plain_connection::PlainConnection;
pub use promised::{higher, promise_in, promises_less};
pub use pulse::{OwnReport, Probe, Pulse};
pub use refusals::{Refusals, Refused};
pub use settings::{Settings, settings_of};
pub use stage::Stage;
pub use turning::{DialEnd, Turn, closed_end, next_turn};
