//! The most that parts of a call make, by the limits of frames, lines and logs.
//!
//! Frames of one command at most are counted, each as the longest of them (`MOST_SINGLE_FRAME`), and a frame of several as
//! one for each of its commands, so that the room of two parts of a call is the sum of theirs. Contracts and definitions
//! name those of frames, so another count of nodes or another longest frame is changed where it stands, in `paxos_wire`,
//! and nowhere here; those of texts they say as numbers.

use card_core::limits::PLAYERS;
use match_log::MOST_FURTHER;
use matchstate::MOST_LINE;
use paxos_wire::limits::{MOST_SINGLE_FRAME, NODES, WINDOW};

/// The most frames of one message to all nodes: one to each but the sender, which is counted with them.
pub(crate) const FRAMES_TO_ALL: usize = NODES as usize;

/// The most bytes of these frames.
pub(crate) const FRAME_BYTES_TO_ALL: usize = FRAMES_TO_ALL * MOST_SINGLE_FRAME;

/// The most frames that the close of a call makes for each command that it proposes: two messages to all nodes, a proposal
/// and the node's own vote for it.
pub(crate) const FRAMES_OF_A_CLOSE: usize = 2 * FRAMES_TO_ALL;

/// The most frames that a message of another node is answered with, but for the votes for the commands that it asks to
/// accept: one for each slot that an Ask is told of. What other messages are answered with has room in it: a Promise, which
/// tells of as many slots in one frame, has fewer bytes.
pub(crate) const FRAMES_OF_AN_ANSWER: usize = WINDOW;

/// The most bytes of these frames.
pub(crate) const FRAME_BYTES_OF_AN_ANSWER: usize = FRAMES_OF_AN_ANSWER * MOST_SINGLE_FRAME;

/// The most answers that a call counts: one that came, or that the node gives itself, and the one for all that the close
/// proposes.
pub(crate) const ANSWERS_OF_A_CALL: usize = 2;

/// The most commands that a call learns: those that a message tells, or that it completes a quorum for, and those that the
/// close proposes, 64 at most of each.
pub(crate) const COMMANDS_OF_A_CALL: usize = 2 * WINDOW;

/// The most frames of any call by a message: what it is answered with, each command that it asks to accept as one to all
/// nodes, those of the close, and a question.
pub(crate) const MOST_FRAMES_OF_A_MESSAGE: usize = FRAMES_OF_AN_ANSWER
    + FRAMES_TO_ALL * WINDOW
    + FRAMES_OF_A_CLOSE * WINDOW
    + 1;

/// The most texts that a command shows: a line to each seat, and what the log has further.
pub(crate) const TEXTS_OF_A_COMMAND: usize = PLAYERS + 1;

/// The most bytes of these texts.
pub(crate) const TEXT_BYTES_OF_A_COMMAND: usize = PLAYERS * MOST_LINE + MOST_FURTHER;
