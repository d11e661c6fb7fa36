//! The ranges of the numbers in frames, each in this one place; those of hands, actions and slots are the sequential
//! dealer's, and the greatest amount is the game's.

/// The version byte that frames are written with.
pub const VERSION: u8 = 2;

/// The version byte of the frames of before, which are read too.
pub const OLD_VERSION: u8 = 1;

/// Nodes are numbered from 0 to one below this.
pub const NODES: u8 = 7;

/// One place for each node that there may be.
pub const PLACES: usize = NODES as usize;

/// In the old version they are numbered from 0 to one below this.
pub const OLD_NODES: u8 = 5;

/// Slots are numbered from 0 to one below this.
pub const SLOTS: u32 = slot_log::limits::SLOTS;

/// Hands are numbered from 0 to one below this.
pub const HANDS: u32 = slot_log::limits::HANDS;

/// The actions of a hand are numbered from 0 to one below this.
pub const ACTIONS: u16 = slot_log::limits::ACTIONS;

/// The greatest amount of a raise, in whole chips.
pub const MOST_CHIPS: u32 = game_def::limits::MOST_CHIPS as u32;

/// The slots from the one that is asked for that a Promise tells of, and so its most entries; and the most commands for
/// slots that follow one another that are told at once.
pub const WINDOW: usize = 64;

/// The bytes of a ballot.
pub const BALLOT_BYTES: usize = 5;

/// The bytes of a slot.
pub const SLOT_BYTES: usize = 4;

/// The most bytes of a command: those of a deal for ten players, which has six bytes of its kind, its hand and the count
/// of its cards before them.
pub const MOST_COMMAND: usize = 6 + card_core::limits::CARDS;

/// The least that a frame's length may say: the version byte and the kind.
pub const LEAST_LENGTH: usize = 2;

/// The most that a frame's length may say.
pub const MOST_LENGTH: usize = 4096;

/// The bytes of a frame's length itself.
pub const LENGTH_BYTES: usize = 4;

/// The bytes in front of the commands of an Accept or an Accepted, and of the entries of a Promise: those of the length, the
/// version and the kind, of a ballot, of a slot, and the one that counts them.
pub const RUN_FRONT: usize = LENGTH_BYTES + LEAST_LENGTH + BALLOT_BYTES + SLOT_BYTES + 1;

/// The most bytes of the frame of one command, its length's four among them: those of an Accept, or an Accepted, of a deal
/// for ten players.
pub const MOST_SINGLE_FRAME: usize = RUN_FRONT + MOST_COMMAND;

/// The most bytes of an Accept, or an Accepted, its length's four among them: those of one of such a deal at each of 64
/// slots.
pub const MOST_RUN_FRAME: usize = RUN_FRONT + WINDOW * MOST_COMMAND;

/// The most bytes of an entry of a Promise.
const MOST_ENTRY: usize = SLOT_BYTES + BALLOT_BYTES + MOST_COMMAND;

/// The most bytes of a frame, its length's four among them: those of a Promise that tells of such a deal at each of
/// its slots.
pub const MOST_FRAME: usize = RUN_FRONT + WINDOW * MOST_ENTRY;
